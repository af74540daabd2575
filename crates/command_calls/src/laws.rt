ghost use Rattle.std.specs.Prelude.{◌≡◌, ℕ, List, Ok};
ghost use Rattle.outside_io.specs.Shelf.{Kept};
ghost use Rattle.command_calls.specs.Bytes.{AreWritable, request_bytes};
ghost use Rattle.command_calls.specs.Requests.{request_read};

/// A request reads as the words and the files that were written into it. It states a law, and does
/// nothing.
#[tactic(auto, using(crate::proofs::WriteLaws::read_back))]
pub fn requests_read_as_written()
    ensures { (words : List (List ℕ)) → (files : List Kept) → AreWritable words files
        → request_read (request_bytes words files) ≡ Ok (record { words = words; files = files }) }
{}
