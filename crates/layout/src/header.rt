// The byte offsets of the header fields.
pub const MAGIC: u32 = 0x080;

pub const NAME_OFFSET: u32 = 0x084;

pub const NEXT_CRO: u32 = 0x088;

pub const PREVIOUS_CRO: u32 = 0x08C;

pub const FILE_SIZE: u32 = 0x090;

pub const BSS_SIZE: u32 = 0x094;

// How much of the module is left once it is fixed.
pub const FIXED_SIZE: u32 = 0x098;

// The function every import points at while nothing provides it.
pub const ON_UNRESOLVED_SEGMENT_TAG: u32 = 0x0AC;

// The first field holding an offset that becomes an address on rebase.
pub const FIRST_REBASED: u32 = 0x0B0;

pub const CODE_OFFSET: u32 = 0x0B0;

pub const CODE_SIZE: u32 = 0x0B4;

pub const DATA_OFFSET: u32 = 0x0B8;

pub const DATA_SIZE: u32 = 0x0BC;

pub const MODULE_NAME_OFFSET: u32 = 0x0C0;

pub const MODULE_NAME_SIZE: u32 = 0x0C4;

pub const SEGMENT_TABLE_OFFSET: u32 = 0x0C8;

pub const SEGMENT_NUM: u32 = 0x0CC;

pub const EXPORT_NAMED_SYMBOL_TABLE_OFFSET: u32 = 0x0D0;

pub const EXPORT_NAMED_SYMBOL_NUM: u32 = 0x0D4;

pub const EXPORT_INDEXED_SYMBOL_TABLE_OFFSET: u32 = 0x0D8;

pub const EXPORT_INDEXED_SYMBOL_NUM: u32 = 0x0DC;

pub const EXPORT_STRINGS_OFFSET: u32 = 0x0E0;

pub const EXPORT_STRINGS_SIZE: u32 = 0x0E4;

pub const EXPORT_TREE_TABLE_OFFSET: u32 = 0x0E8;

pub const EXPORT_TREE_NUM: u32 = 0x0EC;

pub const IMPORT_MODULE_TABLE_OFFSET: u32 = 0x0F0;

pub const IMPORT_MODULE_NUM: u32 = 0x0F4;

pub const EXTERNAL_RELOCATION_TABLE_OFFSET: u32 = 0x0F8;

pub const EXTERNAL_RELOCATION_NUM: u32 = 0x0FC;

pub const IMPORT_NAMED_SYMBOL_TABLE_OFFSET: u32 = 0x100;

pub const IMPORT_NAMED_SYMBOL_NUM: u32 = 0x104;

pub const IMPORT_INDEXED_SYMBOL_TABLE_OFFSET: u32 = 0x108;

pub const IMPORT_INDEXED_SYMBOL_NUM: u32 = 0x10C;

pub const IMPORT_ANONYMOUS_SYMBOL_TABLE_OFFSET: u32 = 0x110;

pub const IMPORT_ANONYMOUS_SYMBOL_NUM: u32 = 0x114;

pub const IMPORT_STRINGS_OFFSET: u32 = 0x118;

pub const IMPORT_STRINGS_SIZE: u32 = 0x11C;

pub const STATIC_ANONYMOUS_SYMBOL_TABLE_OFFSET: u32 = 0x120;

pub const STATIC_ANONYMOUS_SYMBOL_NUM: u32 = 0x124;

pub const INTERNAL_RELOCATION_TABLE_OFFSET: u32 = 0x128;

pub const INTERNAL_RELOCATION_NUM: u32 = 0x12C;

pub const STATIC_RELOCATION_TABLE_OFFSET: u32 = 0x130;

pub const STATIC_RELOCATION_NUM: u32 = 0x134;

pub const SIZE: u32 = 0x138;
