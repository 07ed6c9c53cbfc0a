//! The claims about every command and every run. Each function is one claim, proved as its contract; its body is empty,
//! since the claim is about the definitions in the contracts of `command` and `run`. docs/CLAIMS.md explains each.
ghost use Rattle.std.specs.Prelude.{ℕ, ◌≡◌, ◌^◌, Bool, List};
ghost use Rattle.protocols.specs.declared.place.Party.{Party};
ghost use Rattle.protocols.specs.declared.place.Place.{Place};
ghost use Rattle.protocols.specs.Word.{modulus};
ghost use Rattle.protocols.specs.Shares.{Miner};
ghost use Rattle.machine.specs.declared.code.Command.{Command};
ghost use Rattle.machine.specs.declared.lent.Sizes.{Sizes};
ghost use Rattle.machine.specs.Lent.{Lent, sizes, LentAreWords};
ghost use Rattle.machine.specs.Run.{RunResult, run_to_refusal};
ghost use Rattle.machine.specs.Claims as claims;
ghost use Rattle.machine.specs.Apart.{HasPrograms, RunsApart, SameRunView, MixedRuns};
ghost use Rattle.machine.specs.WorkedRuns.{WorkedRuns};
ghost use Rattle.machine.specs.declared.refusal.Refusal.{Refusal};
ghost use Rattle.machine.specs.Texts.{RefusalNumbers, RefusalTexts, KindTexts};

/// Kinds, codes and rows are those of the table; Specification: Table of commands.
pub fn table_at_32()
    ensures { claims.TableAt32 }
{}

/// Every command answers the lowest refusal that applies, and a refused one changes nothing;
/// Specification: Order of refusals, Specification: Refused commands.
pub fn command_refusals()
    ensures { (n : ℕ) (c : Command) (p : Place) (l : Lent) → claims.CommandRefusals n c p l }
{}

/// After every command the shares combine to the registers of the register machine, and all counts are those of the
/// table; Specification: Registers, Specification: Accepted commands.
pub fn command_agreement()
    ensures { (n : ℕ) (c : Command) (p : Place) (l : Lent)
        → LentAreWords (modulus n) p l → claims.CommandAgreement n c p l }
{}

/// The words that each party receives in store, multiply, reshare, bit and open, in their order;
/// Specification: Order of words.
pub fn transcript()
    ensures { (n : ℕ) (c : Command) (p : Place) (l : Lent) → claims.Transcript n c p l }
{}

/// What `command_agreement` says holds at each command of a run; Specification: Runs.
pub fn throughout()
    ensures { (n : ℕ) (cs : List Command) (p : Place) (l : Lent)
        → LentAreWords (modulus n) p l → claims.Throughout n cs p l }
{}

/// The register machine, started once, has a run's numbers, place records, registers and opened words;
/// Specification: Registers, Specification: Opened words.
pub fn run_agrees()
    ensures { (n : ℕ) (cs : List Command) (p : Place) (l : Lent)
        → LentAreWords (modulus n) p l → claims.RunAgrees n cs p l }
{}

/// A run up to the first refusal is the run of the commands up to it; Specification: Runs.
pub fn to_refusal()
    ensures { (n : ℕ) (cs : List Command) (p : Place) (l : Lent) → claims.ToRefusal n cs p l }
{}

/// A run up to the first refusal opens what the register machine opens; Specification: Opened words.
pub fn opened_to_refusal()
    ensures { (n : ℕ) (cs : List Command) (p : Place) (l : Lent)
        → LentAreWords (modulus n) p l → claims.OpenedToRefusal n cs p l }
{}

/// In a run up to the first refusal, each three words that the controller receives have an opened word as their sum;
/// Specification: Answers.
pub fn adds_up()
    ensures { (n : ℕ) (cs : List Command) (p : Place) (l : Lent)
        → claims.AddsUp (modulus n) cs p l (run_to_refusal n cs p l) }
{}

/// If refusal 4 does not apply, it does not apply after any command; Specification: Table of refusals.
pub fn stays_sound()
    ensures { (n : ℕ) (c d : Command) (p : Place) (l : Lent) → claims.StaysSound n c d p l }
{}

/// Blindness of runs from the empty place record; Specification: Blindness.
pub fn run_blindness()
    ensures every_width { (n : ℕ) → claims.RunBlindness n (modulus n) }
    ensures at_32 { claims.RunBlindness 5 (2 ^ 32) }
{}

/// Blindness of runs up to the first refusal; Specification: Blindness.
pub fn run_blindness_to_refusal()
    ensures every_width { (n : ℕ) → claims.RunBlindnessToRefusal n (modulus n) }
    ensures at_32 { claims.RunBlindnessToRefusal 5 (2 ^ 32) }
{}

/// Equal records of a miner are equal in each part of a miner's record; Specification: Records.
pub fn miner_records()
    ensures { (i : Miner) (r r' : RunResult) → claims.MinerRecords i r r' }
{}

/// Equal records of the controller are equal in each part of its record; Specification: Records.
pub fn controller_records()
    ensures { (r r' : RunResult) → claims.ControllerRecords r r' }
{}

/// There are four programs, for provider and miners, that give each run, past refusals or up to the first one;
/// Specification: Parties apart.
pub fn runs_apart()
    ensures { (n : ℕ) (cs : List Command) (p : Place) (z : Sizes) (k : List ℕ) → RunsApart n cs p z k }
{}

/// A miner's table after a run that has programs depends only on its table, its tape and its received list.
pub fn same_run_view()
    ensures { (runs : Place → Lent → RunResult) (p : Place) (z : Sizes) (k : List ℕ)
        → HasPrograms runs p z k → SameRunView runs p z k }
{}

/// If two runs that have programs leave the same received lists, so does each run in which every party has its own part
/// of the lent lists and its tape from the one or from the other.
pub fn mixed_runs()
    ensures { (runs : Place → Lent → RunResult) (p : Place) (z : Sizes) (k : List ℕ) → HasPrograms runs p z k
        → (l l' : Lent) → sizes l ≡ z → sizes l' ≡ z → l.kinds ≡ k → l'.kinds ≡ k
        → (first : Party → Bool) → MixedRuns runs p l l' first }
{}

/// The protocol of an accepted command never lacks a word; Specification: Draws.
pub fn never_spent()
    ensures { (n : ℕ) (c : Command) (p : Place) (l : Lent) → claims.NeverSpent n c p l }
{}

/// One run of each command, with all counts, shares and received lists as numbers that a second writing computed.
pub fn worked_runs()
    ensures { WorkedRuns }
{}

/// A number names a refusal exactly if the refusal has that number. Specification: Table of refusals.
pub fn refusal_numbers()
    ensures { (k : ℕ) (r : Refusal) → RefusalNumbers k r }
{}

/// The text of each refusal, written out, and that none is over 127 bytes. Specification: Sentences.
pub fn refusal_texts()
    ensures { RefusalTexts }
{}

/// The words for the two kinds, written out. Specification: Kinds.
pub fn kind_texts()
    ensures { KindTexts }
{}
