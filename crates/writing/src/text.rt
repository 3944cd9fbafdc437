// A text in reserved memory, and a text put into lent bytes.
ghost use Rattle.std.specs.Prelude.{◌≡◌, ◌+◌, ◌≤◌, [], ◌++◌, length, vec_len, vec_capacity, decimal, IfOk};
ghost use Rattle.tasks.specs.Refusals.{answer};
ghost use Rattle.writing.specs.Lent.{put_answer, fronted};
ghost use Rattle.writing.specs.Texts.{Held};

use itoa::Buffer;
use std::alloc::{AllocError, Global};
use std::marker::Model;
use tasks::refusal::Refusal;

// Bytes in memory that was reserved for ROOM of them, so that adding to them asks for none and cannot fail. Words and numbers are
// added by its methods and not by `write!`, whose contract does not say when it succeeds: a print by it might be refused for want
// of memory. Each function that adds asks for as much room as it may take, which differs from one to the next.
#[derive(Drop)]
pub struct Text<const ROOM: usize> {
    bytes: Vec<u8>,
}

impl<const ROOM: usize> Model for Text<ROOM> {
    ghost Value = { Held };

    ghost view = { λ text. record { bytes = text.bytes.items; room = vec_capacity text.bytes } };

    ghost invariant = { λ text. ROOM ≤ vec_capacity text.bytes };
}

impl<const ROOM: usize> Text<ROOM> {
    pub fn with_room(heap: Global) -> Result<Text<ROOM>, AllocError>
        ensures { IfOk result (λ text. text.bytes ≡ []) }
    {
        Ok(Text {
            bytes: Vec::with_capacity(heap, ROOM)?,
        })
    }

    // A text over memory that someone else reserved, with what stands there.
    pub fn over(bytes: Vec<u8>) -> Text<ROOM>
        requires { ROOM ≤ vec_capacity bytes }
        ensures bytes { result.bytes ≡ bytes.items }
        ensures room { result.room ≡ vec_capacity bytes }
    {
        Text { bytes }
    }

    // The bytes, with their memory.
    pub fn into_bytes(self) -> Vec<u8>
        ensures items { result.items ≡ self.entry.bytes }
        ensures room { vec_capacity result ≡ self.entry.room }
        ensures enough { ROOM ≤ vec_capacity result }
    {
        let Text { bytes } = self;
        bytes
    }

    pub fn as_slice(&self) -> &[u8]
        ensures { result.now ≡ self.now.bytes }
    {
        self.bytes.as_slice()
    }

    pub fn clear(&mut self)
        ensures bytes { self.new.bytes ≡ [] }
        ensures room { self.old.room ≤ self.new.room }
    {
        self.bytes.clear();
    }

    pub fn add(&mut self, more: &[u8])
        requires { length self.old.bytes + length more.now ≤ ROOM }
        ensures bytes { self.new.bytes ≡ self.old.bytes ++ more.now }
        ensures room { self.old.room ≤ self.new.room }
    {
        add(&mut self.bytes, more);
    }

    // A number, as it is written.
    pub fn add_number(&mut self, n: u64)
        requires { length self.old.bytes + 20 ≤ ROOM }
        ensures bytes { self.new.bytes ≡ self.old.bytes ++ decimal n }
        ensures len { length self.new.bytes ≤ length self.old.bytes + 20 }
        ensures room { self.old.room ≤ self.new.room }
    {
        add_number(&mut self.bytes, n);
    }
}

// Adds to bytes that have room for more.
pub fn add(bytes: &mut Vec<u8>, more: &[u8])
    requires { vec_len bytes.old + length more.now ≤ vec_capacity bytes.old }
    ensures items { bytes.new.items ≡ bytes.old.items ++ more.now }
    ensures len { vec_len bytes.new ≡ vec_len bytes.old + length more.now }
    ensures room { vec_capacity bytes.old ≤ vec_capacity bytes.new }
{
    let Ok(()) = bytes.extend_from_slice(more) else {
        unreachable()
    };
}

// Adds a number, as it is written.
pub fn add_number(bytes: &mut Vec<u8>, n: u64)
    requires { vec_len bytes.old + 20 ≤ vec_capacity bytes.old }
    ensures items { bytes.new.items ≡ bytes.old.items ++ decimal n }
    ensures len { vec_len bytes.new ≤ vec_len bytes.old + 20 }
    ensures room { vec_capacity bytes.old ≤ vec_capacity bytes.new }
{
    add(bytes, Buffer::new().format(n).as_bytes());
}

// Puts bytes at the front of lent ones and answers how many; too few are refused, and then not a byte is written: 5.
pub fn put(bytes: &[u8], out: &mut [u8]) -> Result<usize, Refusal>
    ensures answer { answer result ≡ put_answer bytes.now out.old }
    ensures out { out.new ≡ fronted bytes.now out.old }
{
    let count = bytes.len();
    if out.len() < count {
        return Err(Refusal::Narrow);
    }
    out[0..count].copy_from_slice(bytes);
    Ok(count)
}

#[cfg(test)]
mod tests {
    use super::*;
    use std::test::Fail;

    #[test]
    fn a_text_takes_words_and_numbers(rt: HostRuntime) -> Result<(), Fail> {
        let mut text = Text::<25>::with_room(rt.alloc())?;
        text.add(b"late ");
        text.add_number(10_000_000);
        assert_eq!(rt; text.as_slice(), b"late 10000000".as_slice());
        text.clear();
        text.add_number(u64::MAX);
        assert_eq!(rt; text.as_slice(), b"18446744073709551615".as_slice());
        let mut more = Text::<4>::over(Vec::from_slice(rt.alloc(), b"late")?);
        more.clear();
        more.add(b"\n");
        assert_eq!(rt; more.into_bytes().as_slice(), b"\n".as_slice());
        Ok(())
    }
}
