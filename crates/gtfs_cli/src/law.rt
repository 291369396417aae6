//! What a command ends with is one thing.
ghost use Rattle.std.specs.Prelude.{◌≡◌, ℕ, true, List, Some};
ghost use Rattle.clap.specs.Words.{Text, takes};
ghost use Rattle.gtfs_devices.specs.Folder.{Store};
ghost use Rattle.gtfs_commands.specs.Words.{gtfs_app, ServeTexts};
ghost use Rattle.gtfs_cli.specs.AskedCommand.{plan_of, Asked, Asks, HearsNothing};
ghost use Rattle.gtfs_cli.specs.CommandOutcomes.{EndsAsOne, IsOutcome, IsUnhindered, Outcome};
ghost use Rattle.gtfs_cli.specs.CommandPlan.{IsRun};
ghost use Rattle.gtfs_cli.specs.DevicesSeen.{Devices, Output, Talk};
ghost use Rattle.gtfs_cli.specs.ServeCommand.{IsWhollyServed};

/// A law of commands, which its contract states: words ask for one thing, and where it is a command
/// other than `serve`, it has one outcome over the same folders, where they and the output work and
/// memory suffices: what the folders hold then, what is printed, what the error output is told, and
/// the status. It does nothing when it runs.
pub fn outcomes_are_one()
    ensures asked { (words : List Text) (x y : Asked) → Asks words x → Asks words y → x ≡ y }
    ensures outcome { (limit : ℕ) (store : Store) (talk : Talk) (words : List Text) (asked : Asked)
        (x y : Outcome) → takes gtfs_app words ≡ true → Asks words asked → HearsNothing asked
        → IsOutcome (plan_of limit (Some store) talk words asked) (Some store) x
        → IsOutcome (plan_of limit (Some store) talk words asked) (Some store) y → x ≡ y }
{}

/// A law of runs of every command but `serve`, which its contract states: where no folder and no
/// output fails and memory suffices, what `run` promises says that it ends with an outcome of what the words ask for, whose
/// status it has whatever the error output did. With `outcomes_are_one` no two runs of the same words
/// over the same folders print otherwise or have another status. It does nothing when it runs.
pub fn runs_end_with_outcomes()
    ensures { (limit : ℕ) (store : Store) (talk : Talk) (words : List Text) (asked : Asked)
        (before after : Devices) (err told : Output) (status : ℕ)
        → takes gtfs_app words ≡ true → Asks words asked → HearsNothing asked
        → IsUnhindered before after status
        → IsRun (plan_of limit (Some store) talk words asked) before after err told status
        → EndsAsOne before after err told status
        (IsOutcome (plan_of limit (Some store) talk words asked) (Some store)) }
{}

/// A law of conversations, which its contract states: where memory suffices for each answer, `serve`
/// answers the same lines by one text over the same folders, whatever the devices are and when they
/// were asked. It does nothing when it runs.
pub fn conversations_are_one()
    ensures { (limit : ℕ) (store : Store) (asked : ServeTexts) (lines : List (List ℕ)) (one other : Talk)
        (x y : List ℕ) → one.before.waiting ≡ Some lines → other.before.waiting ≡ Some lines
        → IsWhollyServed limit (Some store) one asked x
        → IsWhollyServed limit (Some store) other asked y → x ≡ y }
{}
