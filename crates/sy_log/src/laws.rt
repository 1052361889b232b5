ghost use Rattle.std.specs.Prelude.{ℕ, ◌≤ℤ◌, List, Result, Ok};
ghost use Rattle.sy_base.specs.declared.refusal.FaultName.{FaultName};
ghost use Rattle.sy_core.specs.Soundness.{HasNamesApart, IsSound};
ghost use Rattle.sy_core.specs.declared.deed.Deed.{Deed};
ghost use Rattle.sy_core.specs.declared.happening.Happening.{Happening};
ghost use Rattle.sy_log.specs.declared.read.Entry.{Entry};
ghost use Rattle.sy_log.specs.declared.read.Entry.TheVariants.{Noted};
ghost use Rattle.sy_log.specs.Entries.{HasFewNames, IsEntry};
ghost use Rattle.sy_log.specs.EntryText.{entry_text};
ghost use Rattle.sy_log.specs.Happenings.{IsOfDeed};
ghost use Rattle.sy_log.specs.Naming.{HasWords};

/// What soundness says of names, and no program: a sound deed has few.
pub fn sound_deeds_have_few_names()
    ensures { (deed : Deed) → IsSound deed → HasFewNames deed }
{}

/// What the lines of a log say, and no program: each says something, or has a first fault.
pub fn each_line_says_something()
    ensures { (deed : Deed) (bytes : List ℕ) → (entry : Result Entry FaultName) × IsEntry deed bytes entry }
{}

/// What the line of a happening says, and no program: where the names of the deed are words of the
/// language, and apart, the line of each of its happenings from start on says that happening.
pub fn printed_entries_read_back()
    ensures { (deed : Deed) (happening : Happening) → HasWords deed → HasNamesApart deed → IsOfDeed deed happening
        → deed.start ≤ℤ happening.point → IsEntry deed (entry_text deed happening) (Ok (Noted happening)) }
{}
