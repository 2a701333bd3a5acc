// How pictures lie on the page.
ghost use Rattle.std.specs.Prelude.{◌≡◌};
ghost use Rattle.layout.specs.inner.Pose.{pose_of, composed_of, upright_of};

use pictures::Turn;

// One of the eight ways in which a picture can lie: so many quarter turns to the left, and 4 more if it is mirrored before them.
#[derive(Clone, Copy)]
pub struct Pose(pub u32);

pub fn pose_of(t: Turn) -> Pose
    ensures { result.0 ≡ pose_of t }
{
    match t {
        Turn::Stay => Pose(0),
        Turn::Left => Pose(1),
        Turn::Half => Pose(2),
        Turn::Right => Pose(3),
        Turn::FlipX => Pose(4),
        Turn::FlipY => Pose(6),
        Turn::Crop {
            left: _,
            top: _,
            wide: _,
            high: _,
        } => Pose(0),
        Turn::Misfit => Pose(0),
    }
}

// A picture that lies one way in a picture that lies another way. What is mirrored turns the other way round.
pub fn composed(outer: Pose, inner: Pose) -> Pose
    ensures { result.0 ≡ composed_of outer.0 inner.0 }
{
    let o = outer.0 % 8;
    let i = inner.0 % 8;
    let mirrors = (o / 4 + i / 4) % 2;
    if o < 4 {
        return Pose((o + i % 4) % 4 + 4 * mirrors);
    }
    Pose((o + (4 - i % 4)) % 4 + 4 * mirrors)
}

// What brings a pose back upright: a mirrored one is its own way back.
pub fn upright(pose: Pose) -> Pose
    ensures { result.0 ≡ upright_of pose.0 }
{
    let p = pose.0 % 8;
    if p < 4 {
        return Pose((4 - p) % 4);
    }
    Pose(p)
}
