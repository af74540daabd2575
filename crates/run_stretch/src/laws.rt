//! What holds of stretches. Each function states one law, and does nothing.
ghost use Rattle.std.specs.Prelude.{ℕ, Bool, List, Ok};
ghost use Rattle.run_windows.specs.declared.until.Until.{Until as until_value};
ghost use Rattle.run_stretch.specs.declared.ended.Stretch.{Stretch as stretch_value};
ghost use Rattle.run_stretch.specs.Joined.{AreOne, IsOnTheWay};
ghost use Rattle.run_stretch.specs.Stretches.{Comes, IsAdvanced};

/// A run that is done in stretches is the run: where a first stretch goes part of the way and a
/// second goes on from the bytes of its board, over the same image, tape and wiring, what they
/// return, joined, is what the whole returns, and the second ends where the whole does. Each may
/// have a room of its own.
pub fn stretches_are_the_run()
    ensures { (image board tape : List ℕ) → (timers : Bool) → (some more all : ℕ) → (one other : until_value) → IsOnTheWay one other
        → (first second whole : stretch_value)
        → Comes image board tape (IsAdvanced some timers one) (Ok first)
        → Comes image first.board tape (IsAdvanced more timers other) (Ok second)
        → Comes image board tape (IsAdvanced all timers other) (Ok whole)
        → AreOne first second whole }
{}
