// For tests: where the parts of a frame stand, in the form that tools/README.md has. The frame is at the front of the slice.
ghost use Rattle.std.specs.Prelude.{◌≤◌, length, IfSome};
ghost use Rattle.test_text.specs.frames.Frames.{InOrder};

const HEAD: usize = 21;

// Where the bytes of each part begin, behind the head and the curve, and where the last ends; and how long the output is.
#[derive(Clone, Copy, Debug, PartialEq, Eq)]
pub struct Frame {
    pub first: usize,
    pub second: usize,
    pub total: usize,
    pub end: usize,
    pub output: usize,
}

// A slice too short for a head has a frame that doesn't fit in it.
pub fn cut(s: &[u8]) -> Frame
    ensures { InOrder result }
{
    if s.len() < HEAD {
        return Frame {
            first: HEAD,
            second: HEAD,
            total: HEAD,
            end: HEAD,
            output: 0,
        };
    }
    let first = HEAD + record_bytes::read32(s, 1) as usize;
    let second = first + record_bytes::read32(s, 5) as usize;
    let total = second + record_bytes::read32(s, 9) as usize;
    let end = total + record_bytes::read32(s, 17) as usize;
    Frame {
        first,
        second,
        total,
        end,
        output: record_bytes::read32(s, 13) as usize,
    }
}

// None where the whole frame isn't there.
pub fn whole(s: &[u8]) -> Option<Frame>
    ensures { IfSome result (λ f. InOrder f × (f.end ≤ length s.now)) }
{
    let f = cut(s);
    if s.len() < f.end {
        return None;
    }
    Some(f)
}
