// Reading a case.
use std::io::Read;

// Which call a case is for.
#[derive(Clone, Copy)]
pub enum Kind {
    Writer,
    Clause,
    PlanCheck,
    Decoder,
    Encoder,
    Reader,
    Floor,
    PrunedWriter,
    Size,
    PrunedSize,
    CeilingSize,
    CeilingWriter,
    CeilingDecoder,
    CeilingEncoder,
    CeilingReader,
    Tally,
}

impl Kind {
    fn of(byte: u8) -> Option<Kind> {
        let kind = match byte {
            1 => Kind::Writer,
            2 => Kind::Clause,
            3 => Kind::PlanCheck,
            4 => Kind::Decoder,
            5 => Kind::Encoder,
            6 => Kind::Reader,
            7 => Kind::Floor,
            8 => Kind::PrunedWriter,
            9 => Kind::Size,
            10 => Kind::PrunedSize,
            11 => Kind::CeilingSize,
            12 => Kind::CeilingWriter,
            13 => Kind::CeilingDecoder,
            14 => Kind::CeilingEncoder,
            15 => Kind::CeilingReader,
            16 => Kind::Tally,
            _ => return None,
        };
        Some(kind)
    }
}

// A case. It has no kind where no call has that number.
#[derive(Clone, Copy)]
pub struct Case<'a> {
    pub kind: Option<Kind>,
    pub m: usize,
    pub rule: usize,
    pub number: usize,
    pub lent: usize,
    pub instance: &'a [u8],
    pub payload: &'a [u8],
}

impl<'a> Case<'a> {
    // Reads a case, its instance and payload into the space for them. None where the input ends before, a read fails or the space
    // is too small.
    pub fn read<R: Read>(reader: &mut R, space: &'a mut [u8]) -> Option<Case<'a>> {
        let mut head = [0u8; 35];
        reader.read_exact(&mut head).ok()?;
        let middle = numbers::two_bytes(&head, 25);
        let end = middle + numbers::four_bytes(&head, 27);
        if space.len() < end {
            return None;
        }
        reader.read_exact(&mut space[..end]).ok()?;
        Some(Case {
            kind: Kind::of(head[0]),
            m: numbers::eight_bytes(&head, 1),
            rule: numbers::eight_bytes(&head, 9),
            number: numbers::eight_bytes(&head, 17),
            lent: numbers::four_bytes(&head, 31),
            instance: &space[..middle],
            payload: &space[middle..end],
        })
    }
}

// The entries of four bytes that the bytes of `s` stand for. None where the space has not so many.
pub fn read_entries<'a>(s: &[u8], space: &'a mut [i32]) -> Option<&'a [i32]> {
    let (entries, _) = s.as_chunks();
    if space.len() < entries.len() {
        return None;
    }
    for (x, bytes) in space.iter_mut().zip(entries) {
        *x = i32::from_le_bytes(*bytes);
    }
    Some(&space[..entries.len()])
}
