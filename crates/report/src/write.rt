// Reports at the beginning of a byte space.
ghost use Rattle.report.specs.Lines.{net_report, contradiction_report, refusal_report, Written};

use crate::line::{entry_line, line};
use faults::{Located, SheetFault};

// The bytes of a line.
pub const LINE: usize = 19;

// Writes a report of one line.
fn write_line(bytes: [u8; 19], out: &mut [u8]) -> Result<usize, SheetFault>
    ensures { Written bytes out.old out.new result }
{
    if out.len() < LINE {
        return Err(SheetFault::SpaceShort);
    }
    out[0..LINE].copy_from_slice(&bytes);
    Ok(LINE)
}

// Writes the report of a table's entries and says how many bytes it has.
pub fn write_nets(entries: &[u16], out: &mut [u8]) -> Result<usize, SheetFault>
    ensures { Written (net_report entries.now) out.old out.new result }
{
    let Some((_, nets)) = entries.split_first() else {
        return Ok(0);
    };
    if out.len() / LINE < nets.len() {
        return Err(SheetFault::SpaceShort);
    }
    for (i, entry) in nets.iter().enumerate() {
        let bytes = entry_line(i + 1, *entry);
        out[LINE * i..LINE * i + LINE].copy_from_slice(&bytes);
    }
    Ok(LINE * nets.len())
}

// Writes the report of a contradictory sheet.
pub fn write_contradiction(out: &mut [u8]) -> Result<usize, SheetFault>
    ensures { Written contradiction_report out.old out.new result }
{
    write_line(line(0, 3, false, 0), out)
}

// Writes the report of a refused text.
pub fn write_refusal(located: Located, out: &mut [u8]) -> Result<usize, SheetFault>
    ensures { Written (refusal_report located) out.old out.new result }
{
    write_line(
        line(located.line, 4, false, located.fault.number() as usize),
        out,
    )
}
