// What the steps of a rebase take and give.
use layout::format::Segment;

// What a load lends: the module's image, and room for its Data and Bss.
#[derive(Clone, Copy)]
pub struct LoadArguments {
    pub base: u32,
    pub size: u32,
    pub data_segment: u32,
    pub data_segment_size: u32,
    pub bss_segment: u32,
    pub bss_segment_size: u32,
}
