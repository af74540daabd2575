ghost use Rattle.std.specs.Prelude.{◌≡◌, length};
ghost use Rattle.board_debug.specs.Columns.{address_head};

use text_line::Line;

/// The places of an address and its colon.
pub const HEAD: usize = 5;

/// A line that begins with an address and a colon.
#[tactic(auto, using(std::proofs::Common::append_assoc))]
pub fn address_line(address: u16) -> Line
    ensures text { result ≡ address_head address }
    ensures len { length result ≡ HEAD }
{
    let [high, low] = address.to_be_bytes();
    Line::of("").hex(high).hex(low).text(b":")
}
