// The page around a picture: its look, its field and its legend.
ghost use Rattle.std.specs.Prelude.{◌≡◌};
ghost use Rattle.canvas.specs.inner.Scale.{scale_of};

use crate::number::{put, put_fraction, put_number, put_with};
use crate::pose::put_upright;
use layout::{Margins, Pose, uncut};
use pictures::Size;

// A page of 1,200 by so many steps on the screen.
pub fn open_page(high: u32) {
    put(b"<svg xmlns='http://www.w3.org/2000/svg' xmlns:xlink='http://www.w3.org/1999/xlink'");
    put_with(b" width='1200' height='", high);
    put_with(b"' viewBox='0 0 1200 ", high);
    put(b"'>\n");
    put_style();
    put_with(b"<rect width='1200' height='", high);
    put(b"' fill='#fff'/>\n");
}

// An item has one of six colours.
fn put_style() {
    put(
        b"<style>
text{font-family:'DejaVu Sans',Verdana,Arial,sans-serif;font-size:15px;fill:#222}
.title{font-size:24px;font-weight:bold}.warn{fill:#b00020}
.tag text{font-size:20px;font-weight:bold;fill:#111;stroke:#fff;stroke-width:3px;stroke-linejoin:round;paint-order:stroke}
.tag .low{font-size:14px;font-weight:normal}
.c0{fill:#cfe3f5}.c1{fill:#d8efd3}.c2{fill:#fdebc8}.c3{fill:#ead9f2}.c4{fill:#f9d9d7}.c5{fill:#d3eeec}
.edge,.under{fill:none;stroke:#234}.shut{fill:#ccc;stroke:#234}.fill{stroke:#7a6a00}
.cut{fill:url(#cut);fill-rule:evenodd;stroke:#a33}.kept{fill:#fff;stroke:#a33}.away{fill:#a33;fill-rule:evenodd}
.up{fill:#0b3d91;opacity:.55}.frame{fill:none;stroke:#d00}
</style>
",
    );
}

// How many millionths of a pixel a step on the screen is, for a frame in a field of 1,140 by 800 steps.
pub fn scale_of(frame: Size) -> u32
    ensures { result ≡ scale_of frame }
{
    let across = frame.wide as u64 * 1000000 / 1140;
    let down = frame.high as u64 * 1000000 / 800;
    if across < down {
        return down.min(4294967295) as u32;
    }
    across.min(4294967295) as u32
}

// The arrow, and the patterns of what is cut away and of fill, as the legend has them.
fn put_patterns() {
    put(
        b"<path id='up' class='up' stroke='none' d='M-5 48V-12H-20L0 -48L20 -12H5V4H32V24H5V48Z'/>
<pattern id='cuts' width='9' height='9' patternUnits='userSpaceOnUse' patternTransform='rotate(45)'>
<rect width='9' height='9' fill='#fff' fill-opacity='.6'/><rect width='2' height='9' fill='#a33' fill-opacity='.45'/></pattern>
<pattern id='fills' width='44' height='28' patternUnits='userSpaceOnUse'>
<rect width='44' height='28' fill='#fffbe0'/><circle cx='4' cy='4' r='1.5' fill='#a08c00'/><circle cx='26' cy='18' r='1.5' fill='#a08c00'/>
<text x='8' y='14' style='font-size:11px;fill:#8a7800'>fill</text></pattern>
",
    );
}

// The pattern of fill at the picture's scale, its word upright in a pose.
fn put_fill_pattern(pose: u32, scale: u32) {
    put_with(b"<pattern id='fill", pose);
    put(b"' xlink:href='#fills' patternTransform='matrix(");
    put_upright(Pose(pose));
    put_fraction(b"0 0) scale(", scale as u64);
    put(b")'/>\n");
}

// What else depends on the scale.
fn put_scaled(scale: u32) {
    put_fraction(
        b"<pattern id='cut' xlink:href='#cuts' patternTransform='scale(",
        scale as u64,
    );
    put_fraction(
        b") rotate(45)'/>\n<style>.under{stroke-dasharray:",
        scale as u64 * 6,
    );
    put(b"}</style>\n");
    for pose in 0..8 {
        put_fill_pattern(pose, scale);
    }
}

fn put_negative(n: u32) {
    if 0 < n {
        put(b"-");
    }
    put_number(n as u64);
    put(b" ");
}

// The field of a picture and of what was cut away around it.
pub fn open_picture(s: Size, m: Margins, scale: u32) {
    let frame = uncut(s, m);
    put(b"<defs>");
    put_patterns();
    put_scaled(scale);
    put(b"</defs>\n<svg x='30' y='84' width='1140' height='800' overflow='visible' viewBox='");
    put_negative(m.left);
    put_negative(m.top);
    put_with(b"", frame.wide);
    put_with(b" ", frame.high);
    put_fraction(b"'><g id='output' stroke-width='", scale as u64);
    put(b"'>\n");
}

// The frame of the output picture.
pub fn close_picture(s: Size, scale: u32) {
    put_with(b"</g>\n<rect class='frame' width='", s.wide);
    put_with(b"' height='", s.high);
    put_fraction(b"' stroke-width='", scale as u64 * 3);
    put(b"'/></svg>\n");
}

// The legend, and whether all was drawn.
pub fn close_page(all: bool) {
    put(
        b"<g stroke-width='1'><use xlink:href='#up' transform='translate(44 921) scale(.3)'/>
<text x='64' y='926'>up in the coded picture, the flag on its right side</text>
<rect class='frame' x='500' y='910' width='30' height='20' stroke-width='3'/><text x='538' y='926'>what is shown</text>
<rect x='680' y='910' width='30' height='20' fill='url(#cuts)' stroke='#a33'/><text x='718' y='926'>cut away</text>
<rect class='fill' width='44' height='24' fill='url(#fills)' transform='translate(820 908)'/><text x='872' y='926'>fill of an overlay</text>
<rect class='kept' x='34' y='940' width='24' height='20'/><path class='away' d='M34 940h24v20h-24zm4 5v12h14v-12z'/>
<text x='64' y='955'>in a tile or layer: white is what its crop kept</text></g>
",
    );
    if !all {
        put(
            b"<text class='warn' x='30' y='985'>Not all is drawn: grey boxes are pictures that were not gone into.</text>
",
        );
    }
    put(b"</svg>\n");
}
