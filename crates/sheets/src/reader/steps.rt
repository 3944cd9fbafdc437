// The steps of a reader. A sheet that cannot be read on is told by the refusal, with the place of the record where it is so.
ghost use Rattle.std.specs.Prelude.{◌≡◌, Ok, Err, MatchResult};
ghost use Rattle.sheets.specs.Records.{head_of, start_of, shown, seen, spot, due, past};

use crate::placed::Placed;
use crate::reader::{Reader, Record};
use tasks::refusal::Refusal;

impl<'a> Reader<'a> {
    // A reader before the first record. An empty sheet is judged first, then the version.
    pub fn new(sheet: &'a [u8]) -> Result<Reader<'a>, Placed<Refusal>>
        ensures { MatchResult result (λ reader. (reader.sheet.now ≡ sheet.now) × (start_of sheet.now ≡ Ok reader.place)) (λ bad. start_of sheet.now ≡ Err (spot bad)) }
    {
        match sheet {
            [] => Err(Placed::at(0, Refusal::Short)),
            [1, ..] => Ok(Reader { sheet, place: 1 }),
            _ => Err(Placed::at(0, Refusal::Version)),
        }
    }

    // The next record as a part of the sheet, or none at the sheet's end.
    pub fn next(&mut self) -> Result<Option<Record<'a>>, Placed<Refusal>>
        ensures value { seen result ≡ due self.old }
        ensures moved { self.new ≡ past self.old }
    {
        if self.place >= self.sheet.len() {
            return Ok(None);
        }
        let record = head(&self.sheet[self.place..], self.place)?;
        self.place += 3 + record.body.len();
        Ok(Some(record))
    }
}

// The record at the front of what is left of a sheet, which begins at this place.
fn head(rest: &[u8], place: usize) -> Result<Record<'_>, Placed<Refusal>>
    ensures { shown result ≡ head_of rest.now place }
{
    match rest {
        // a length of 0 is no length, even as the last two bytes
        [0, 0, ..] => Err(Placed::at(place, Refusal::Kind)),
        [hi, lo, kind, body @ ..] => {
            let len = usize::from(u16::from_be_bytes([*hi, *lo]));
            let Some(body) = body.get(..len - 1) else {
                return Err(Placed::at(place, Refusal::Short));
            };
            Ok(Record {
                place,
                kind: *kind,
                body,
            })
        }
        _ => Err(Placed::at(place, Refusal::Short)),
    }
}
