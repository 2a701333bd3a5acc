// Types: the four letters that name a box, an item or a brand, as the 32-bit number that they spell. A type stays a number: a
// file may have any 32 bits there, and the table that is lent holds the number.

// At the top of a file.
pub const FTYP: u32 = 0x66747970;

pub const MIF1: u32 = 0x6d696631;

pub const META: u32 = 0x6d657461;

// The children of `meta`.
pub const HDLR: u32 = 0x68646c72;

pub const PITM: u32 = 0x7069746d;

pub const IINF: u32 = 0x69696e66;

pub const ILOC: u32 = 0x696c6f63;

pub const IPRP: u32 = 0x69707270;

pub const IREF: u32 = 0x69726566;

pub const IDAT: u32 = 0x69646174;

// Within them.
pub const PICT: u32 = 0x70696374;

pub const INFE: u32 = 0x696e6665;

pub const IPCO: u32 = 0x6970636f;

pub const IPMA: u32 = 0x69706d61;

pub const DIMG: u32 = 0x64696d67;

// Properties.
pub const ISPE: u32 = 0x69737065;

pub const PASP: u32 = 0x70617370;

pub const COLR: u32 = 0x636f6c72;

pub const PIXI: u32 = 0x70697869;

pub const RLOC: u32 = 0x726c6f63;

pub const AUXC: u32 = 0x61757843;

pub const CLAP: u32 = 0x636c6170;

pub const IROT: u32 = 0x69726f74;

pub const IMIR: u32 = 0x696d6972;

pub const HVCC: u32 = 0x68766343;

pub const JPGC: u32 = 0x6a706743;

// Items.
pub const HVC1: u32 = 0x68766331;

pub const JPEG: u32 = 0x6a706567;

pub const IDEN: u32 = 0x6964656e;

pub const GRID: u32 = 0x67726964;

pub const IOVL: u32 = 0x696f766c;
