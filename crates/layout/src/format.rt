// The types and entry sizes of the on-disk layout, and what their numbers mean.
ghost use Rattle.std.specs.Prelude.{◌≡◌};
ghost use Rattle.layout.specs.Format.{segment_type, segment_type_number, relocation_type, tag_segment, tag_offset};

// Which part of a module a segment holds.
#[derive(Clone, Copy)]
pub enum SegmentType {
    Code,
    RoData,
    Data,
    Bss,
}

impl From<u32> for SegmentType {
    ghost from_gives = { λ value kind. kind ≡ segment_type value };

    fn from(value: u32) -> SegmentType {
        match value {
            0 => SegmentType::Code,
            1 => SegmentType::RoData,
            2 => SegmentType::Data,
            _ => SegmentType::Bss,
        }
    }
}

impl From<SegmentType> for u32 {
    ghost from_gives = { λ kind value. value ≡ segment_type_number kind };

    fn from(kind: SegmentType) -> u32 {
        match kind {
            SegmentType::Code => 0,
            SegmentType::RoData => 1,
            SegmentType::Data => 2,
            SegmentType::Bss => 3,
        }
    }
}

#[derive(Clone, Copy)]
pub struct Segment {
    pub offset: u32,
    pub size: u32,
    pub kind: SegmentType,
}

pub const SEGMENT_ENTRY_SIZE: u32 = 0xC;

pub const EXPORT_NAMED_SYMBOL_ENTRY_SIZE: u32 = 8;

pub const EXPORT_INDEXED_SYMBOL_ENTRY_SIZE: u32 = 4;

pub const EXPORT_TREE_ENTRY_SIZE: u32 = 8;

pub const IMPORT_MODULE_ENTRY_SIZE: u32 = 0x14;

pub const IMPORT_NAMED_SYMBOL_ENTRY_SIZE: u32 = 8;

pub const IMPORT_INDEXED_SYMBOL_ENTRY_SIZE: u32 = 8;

pub const IMPORT_ANONYMOUS_SYMBOL_ENTRY_SIZE: u32 = 8;

pub const STATIC_ANONYMOUS_SYMBOL_ENTRY_SIZE: u32 = 8;

pub const RELOCATION_ENTRY_SIZE: u32 = 0xC;

// A position inside a module: a segment index in the low four bits, and a byte offset into that segment in the rest.
#[derive(Clone, Copy)]
pub struct SegmentTag(pub u32);

impl SegmentTag {
    pub fn segment(self) -> u32
        ensures { result ≡ tag_segment self.0 }
    {
        self.0 % 16
    }

    pub fn offset(self) -> u32
        ensures { result ≡ tag_offset self.0 }
    {
        self.0 / 16
    }
}

// What a relocation does to its target word.
#[derive(Clone, Copy)]
pub enum RelocationType {
    Nothing,
    AbsoluteAddress,
    RelativeAddress,
    ThumbBranch,
    ArmBranch,
    ModifyArmBranch,
    AlignedRelativeAddress,
    Unknown(u8),
}

impl From<u8> for RelocationType {
    ghost from_gives = { λ value kind. kind ≡ relocation_type value };

    fn from(value: u8) -> RelocationType {
        match value {
            0 => RelocationType::Nothing,
            2 | 10 => RelocationType::AbsoluteAddress,
            3 => RelocationType::RelativeAddress,
            4 => RelocationType::ThumbBranch,
            5 => RelocationType::ArmBranch,
            6 => RelocationType::ModifyArmBranch,
            42 => RelocationType::AlignedRelativeAddress,
            other => RelocationType::Unknown(other),
        }
    }
}
