// Reading a sheet in place: the byte layer.
ghost use Rattle.std.specs.Prelude.{◌≡◌};

pub mod steps;

// A reader holds the sheet, and the place of the next record.
#[derive(Drop)]
pub struct Reader<'a> {
    sheet: &'a [u8],
    place: usize,
}

impl<'a> Reader<'a> {
    // Where the next record is due.
    pub fn place(&self) -> usize
        ensures { result ≡ self.now.place }
    {
        self.place
    }
}

// A record: a part of the sheet, with its place.
#[derive(Clone, Copy)]
pub struct Record<'a> {
    pub place: usize,
    // as it stands in the sheet: what kinds there are is for the record layer
    pub kind: u8,
    pub body: &'a [u8],
}
