// What opens the census' text (W-211), made on slices: a training curve, whose lines follow, or the line of what refuses it. Nothing here opens, reads or writes a file.
ghost use Rattle.text_lines.specs.Rule.Text.{census_text};
ghost use Rattle.text_tally.specs.Read.{file_of};
ghost use Rattle.text_tally.specs.census.Opened.{TrainingOf, OpenedIs};

use curve::Curve;
use refusals::Refused;

// The line of what refuses a curve, at the front of the output: its length.
#[derive(Clone, Copy, Debug, PartialEq, Eq)]
pub struct Line {
    pub length: usize,
}

fn read(file: Option<&[u8]>) -> Result<Curve, Refused>
    ensures { TrainingOf (census_text (file_of file.entry)) result }
{
    let s = crate::whole(file)?;
    let c = call_census::read_training(s)?;
    Ok(c)
}

// Of the bytes of a curve's file, None of one that can't be opened or read.
pub fn open(file: Option<&[u8]>, out: &mut [u8; 256]) -> Result<Curve, Line>
    ensures { OpenedIs (census_text (file_of file.entry)) out.old out.new result }
{
    match read(file) {
        Ok(c) => Ok(c),
        Err(r) => Err(Line {
            length: text_lines::refused(r, out),
        }),
    }
}
