// Contents: version and flags, and the two boxes that are one number each. What the larger boxes hold goes into the table and is read in crates of its own.
#![tactic(auto)]

ghost use Rattle.std.specs.Prelude.{◌≡◌};
ghost use Rattle.forms.specs.Form.{Form, whole, front};
ghost use Rattle.contents.specs.Full.{full, between};
ghost use Rattle.contents.specs.Hdlr.{hdlr_form};
ghost use Rattle.contents.specs.Pitm.{pitm_form};
ghost use Rattle.boxes.specs.Told.{told};
ghost use Rattle.contents.specs.inner.Told.{full_of, item_id};

use boxes::Refusal;
use boxes::types::PICT;
use table::ItemId;

// The version and flags of a box.
#[derive(Clone, Copy)]
pub struct Full {
    pub version: u32,
    pub flags: u32,
}

// The version and flags at the front of a content, in a box at a place.
pub fn read_full(s: &[u8], least: u32, most: u32, place: u64) -> Result<Full, Refusal>
    ensures { result ≡ told full_of ((full (between least most)).read place s.now) }
{
    if s.len() < 1 {
        return Err(Refusal { number: 8, place });
    }
    let version = fields::be8(s, 0);
    if version < least {
        return Err(Refusal { number: 6, place });
    }
    if most < version {
        return Err(Refusal { number: 6, place });
    }
    if s.len() < 4 {
        return Err(Refusal { number: 8, place });
    }
    Ok(Full {
        version,
        flags: fields::be24(s, 1),
    })
}

pub fn read_hdlr(s: &[u8], place: u64) -> Result<(), Refusal>
    ensures { result ≡ told (λ u. u) (front hdlr_form place s.now) }
{
    read_full(s, 0, 0, place)?;
    if s.len() < 12 {
        return Err(Refusal { number: 8, place });
    }
    if fields::be32(s, 8) != PICT {
        return Err(Refusal { number: 10, place });
    }
    Ok(())
}

pub fn read_pitm(s: &[u8], place: u64) -> Result<ItemId, Refusal>
    ensures { result ≡ told item_id (whole pitm_form place s.now) }
{
    let h = read_full(s, 0, 1, place)?;
    if h.version == 0 {
        if s.len() == 6 {
            return Ok(ItemId(fields::be16(s, 4)));
        }
        return Err(Refusal { number: 8, place });
    }
    if s.len() == 8 {
        return Ok(ItemId(fields::be32(s, 4)));
    }
    Err(Refusal { number: 8, place })
}
