// A relocated word by its offset: from the image's start, or from that of the lent data or bss.
#[derive(Clone, Copy)]
pub enum WordPlace {
    InImage(usize),
    InData(u32),
    InBss(u32),
    Nowhere,
}

// The image's size, the greatest sizes of Data and Bss segments, and where the last Data segment of size above 0 starts.
#[derive(Clone, Copy)]
pub struct Room {
    pub size: u32,
    pub data_size: u32,
    pub bss_size: u32,
    pub last_data: u32,
}
