ghost use Rattle.std.specs.Prelude.{◌≡◌, ◌<◌, ◌≤◌, [], ◌∷◌, ◌++◌, length};
ghost use Rattle.log_text.specs.Lines.{record_text, levels_letter};

use crate::log_line::LogLine;
use board_base::{Part, Record};
use text_line::LONGEST;

/// The letter of a line of levels.
fn letter(part: Part) -> u8
    ensures { levels_letter part ≡ result ∷ [] }
{
    match part {
        Part::Pokey2 => b'B',
        _ => b'A',
    }
}

/// Puts the words of a record that the part made in place of what stands: its line without LF.
#[inline(always)]
#[tactic(auto, using(std::proofs::Common::append_assoc), unfolding(crate::specs::Lines::record_text))]
fn set_words(line: &mut LogLine, part: Part, record: Record)
    ensures text { line.new ++ 10 ∷ [] ≡ record_text part «record» }
    ensures len { length line.new < LONGEST }
{
    match record {
        Record::Stroke {
            clock,
            x0,
            y0,
            x1,
            y1,
            colour,
            intensity,
        } => {
            line.begin(b'S', clock);
            line.put_point(x0, y0);
            line.put_point(x1, y1);
            line.put_pair(colour, intensity);
        }
        Record::Levels {
            clock,
            l1,
            l2,
            l3,
            l4,
        } => {
            line.begin(letter(part), clock);
            line.put_pair(l1, l2);
            line.put_pair(l3, l4);
        }
        Record::Latch { clock, value } => {
            line.begin(b'L', clock);
            line.put_hex_byte(value);
        }
        Record::WatchdogReset { clock } => line.begin(b'W', clock),
    }
}

/// Puts the line of a record that the part made in place of what stands.
pub(crate) fn set_line(line: &mut LogLine, part: Part, record: Record)
    ensures text { line.new ≡ record_text part «record» }
    ensures len { length line.new ≤ LONGEST }
{
    set_words(line, part, record);
    line.end();
}
