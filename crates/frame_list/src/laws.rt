//! What holds of all frames. Each is the contract of a function that does nothing.
ghost use Rattle.std.specs.Prelude.{◌≡◌, ◌≢◌, ℕ, List, true, false, None};
ghost use Rattle.board_base.specs.declared.record.Record.{Record};
ghost use Rattle.board_map.specs.Map.{row_of};
ghost use Rattle.catchup_engine.specs.declared.trace.Access.{Access};
ghost use Rattle.catchup_engine.specs.Starts.{is_go, mark_of};
ghost use Rattle.frame_list.specs.Extents.{FramesCountStrokes};
ghost use Rattle.frame_list.specs.Frames.{EachStrokeInOneFrame, FrameValue, PartsMakeTheWhole};
ghost use Rattle.frame_list.specs.InFrames.{EachFrameHasItsStrokes};

/// Each stroke is in exactly one frame, so the numbers of strokes of all frames add up to the
/// strokes.
#[tactic(auto, using(crate::proofs::WholeLaws::each_stroke_in_one_frame))]
pub fn each_stroke_in_one_frame()
    ensures { (frame : FrameValue) → (strokes : List Record) → (marks : List ℕ) → EachStrokeInOneFrame frame strokes marks }
{}

/// Taking a first part of the strokes and marks, and then the rest, is taking the whole, where no
/// mark of the first part comes after a stroke of the rest, and no stroke of it after a mark of
/// the rest.
pub fn parts_make_the_whole()
    ensures { (frame : FrameValue) → (strokes1 : List Record) → (marks1 : List ℕ) → (strokes2 : List Record) → (marks2 : List ℕ) → PartsMakeTheWhole frame strokes1 marks1 strokes2 marks2 }
{}

/// The writes that start the generator are those of address 8840; no read does.
#[tactic(auto, using(crate::proofs::WholeLaws::starts_elsewhere), unfolding(board_map::specs::Map::row_of))]
pub fn marks_are_writes_of_8840()
    ensures write { is_go (row_of 0x8840).writes ≡ true }
    ensures others { (addr : ℕ) → addr ≢ 0x8840 → is_go (row_of addr).writes ≡ false }
    ensures reads { (access : Access) → access.write ≡ false → mark_of access ≡ None }
{}

/// A frame has exactly the strokes above its mark and up to the next one, and no others; frame 0
/// has all up to the first mark, and the last frame all above the last mark.
pub fn each_frame_has_its_strokes()
    ensures { (clock : ℕ) → (strokes : List Record) → (marks : List ℕ) → EachFrameHasItsStrokes clock strokes marks }
{}

/// A frame has the number of the strokes that it counts, and bounds that are the least and the
/// greatest x and y over both ends of these.
pub fn frames_count_strokes()
    ensures { (number mark : ℕ) → (strokes : List Record) → FramesCountStrokes number mark strokes }
{}
