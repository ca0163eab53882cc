//! Laws of the words. Each stands as the contract of a function that does nothing.

ghost use Rattle.std.specs.Prelude.{◌≡◌, ◌==◌, ◌<◌, ◌≤◌, ◌∷◌, ◌^◌, [], ℕ, List, Some, None, codes, false, length, true};
ghost use Rattle.sja_command_line.specs.Values.{HasNoFlag};
ghost use Rattle.sja_command_line.specs.Requests.{Request, arbitrate, decode, encode, filter, message, candump, check};
ghost use Rattle.sja_command_line.specs.Requests.{expected, files, frames, live, picture, run, spelled_plan};
ghost use Rattle.sja_command_line.specs.Requests.{struck_plan};
ghost use Rattle.sja_command_line.specs.Requests.{registers, sweep, trace, wave};
ghost use Rattle.sja_command_line.specs.Sweeping.{all_swept};
ghost use Rattle.sja_command_line.specs.Words.{ParsesAs, faults};
ghost use Rattle.clap.specs.declared.error.kind.ErrorKind.TheVariants.{DisplayVersion};
ghost use Rattle.sja_command_line.specs.declared.plan_question.PlanQuestion.TheVariants.{Candump, Check, Frames, Plan};
ghost use Rattle.sja_command_line.specs.declared.plan_question.PlanQuestion.TheVariants.{Report, StruckPlan, Sweep};
ghost use Rattle.sja_command_line.specs.declared.plan_question.PlanQuestion.TheVariants.{Trace};
ghost use Rattle.sja_command_line.specs.declared.plan_question.PlanQuestion.TheVariants.{Picture, Registers, Wave};

/// The program's name, `encode` and a text that doesn't begin with `-` (45) ask for the levels of this message.
pub fn encode_and_a_text_parse()
    ensures empty { (name : List ℕ) → ParsesAs (name ∷ codes "encode" ∷ [] ∷ []) (encode []) }
    ensures text { (name rest : List ℕ) (first : ℕ) → (first == 45) ≡ false
        → ParsesAs (name ∷ codes "encode" ∷ (first ∷ rest) ∷ []) (encode (first ∷ rest)) }
{}

/// The program's name, `decode` and a text that doesn't begin with `-` (45) ask for the message of this line.
pub fn decode_and_a_text_parse()
    ensures empty { (name : List ℕ) → ParsesAs (name ∷ codes "decode" ∷ [] ∷ []) (decode []) }
    ensures text { (name rest : List ℕ) (first : ℕ) → (first == 45) ≡ false
        → ParsesAs (name ∷ codes "decode" ∷ (first ∷ rest) ∷ []) (decode (first ∷ rest)) }
{}

/// The program's name, `filter`, `single` or `dual`, and three texts of which none begins with `-` ask whether such a
/// filter with these registers passes this message. With another text that doesn't begin with `-` in the mode's place
/// they ask for nothing.
pub fn filter_and_texts_parse()
    ensures single { (name acr amr digits : List ℕ) → HasNoFlag (acr ∷ amr ∷ digits ∷ [])
        → ParsesAs (name ∷ codes "filter" ∷ codes "single" ∷ acr ∷ amr ∷ digits ∷ [])
        (filter true acr amr digits) }
    ensures dual { (name acr amr digits : List ℕ) → HasNoFlag (acr ∷ amr ∷ digits ∷ [])
        → ParsesAs (name ∷ codes "filter" ∷ codes "dual" ∷ acr ∷ amr ∷ digits ∷ [])
        (filter false acr amr digits) }
    ensures other { (name mode acr amr digits : List ℕ) (r : Request)
        → ¬ (mode ≡ codes "single") → ¬ (mode ≡ codes "dual") → HasNoFlag (mode ∷ acr ∷ amr ∷ digits ∷ [])
        → ¬ ParsesAs (name ∷ codes "filter" ∷ mode ∷ acr ∷ amr ∷ digits ∷ []) r }
{}

/// The program's name, `arbitrate` and one to eight texts of which none begins with `-` ask what becomes of these
/// messages' frames. With no text, or with more than eight, they ask for nothing.
pub fn arbitrate_and_texts_parse()
    ensures texts { (name : List ℕ) (messages : List (List ℕ)) → HasNoFlag messages
        → 1 ≤ length messages → length messages ≤ 8
        → ParsesAs (name ∷ codes "arbitrate" ∷ messages) (arbitrate messages) }
    ensures none { (name : List ℕ) (r : Request) → ¬ ParsesAs (name ∷ codes "arbitrate" ∷ []) r }
    ensures more { (name : List ℕ) (messages : List (List ℕ)) (r : Request) → HasNoFlag messages
        → 8 < length messages → ¬ ParsesAs (name ∷ codes "arbitrate" ∷ messages) r }
{}

/// The program's name, `message` and a text that doesn't begin with `-` (45) ask for the other form of this text.
pub fn message_and_a_text_parses()
    ensures empty { (name : List ℕ) → ParsesAs (name ∷ codes "message" ∷ [] ∷ []) (message []) }
    ensures text { (name rest : List ℕ) (first : ℕ) → (first == 45) ≡ false
        → ParsesAs (name ∷ codes "message" ∷ (first ∷ rest) ∷ []) (message (first ∷ rest)) }
{}

/// The program's name and `run` ask for the report of the plan on the input; with `--threads` behind them they ask for
/// it with each driver in a thread of its own. With names behind them that don't begin with `-` they ask for the report
/// of each plan in these files, and `--jobs` with a number says how many are taken at one time; `-` is a name too.
pub fn run_parses()
    ensures files { (name : List ℕ) (names : List (List ℕ)) → HasNoFlag names
        → 1 ≤ length names → length names < 2 ^ 64
        → ParsesAs (name ∷ codes "run" ∷ names) (files (Report false) 1 names) }
    ensures jobs { (name : List ℕ) → ParsesAs
        (name ∷ codes "run" ∷ codes "a" ∷ codes "-" ∷ codes "--jobs" ∷ codes "3" ∷ codes "b" ∷ [])
        (files (Report false) 3 (codes "a" ∷ codes "-" ∷ codes "b" ∷ [])) }
    ensures one { (name : List ℕ) → ParsesAs (name ∷ codes "run" ∷ []) (run false) }
    ensures threads { (name : List ℕ) → ParsesAs (name ∷ codes "run" ∷ codes "--threads" ∷ []) (run true) }
{}

/// The program's name, `run`, `--expect` and a name ask whether the report of the plan on the input is the one in this
/// file; with one name more of the plan in that file. With two names more they ask for nothing.
pub fn expected_parses()
    ensures input { (name : List ℕ) → ParsesAs (name ∷ codes "run" ∷ codes "--expect" ∷ codes "r" ∷ [])
        (expected false (codes "-") (codes "r")) }
    ensures file { (name : List ℕ) → ParsesAs
        (name ∷ codes "run" ∷ codes "a" ∷ codes "--threads" ∷ codes "--expect" ∷ codes "r" ∷ [])
        (expected true (codes "a") (codes "r")) }
    ensures two { (name : List ℕ) (r : Request) → ¬ ParsesAs
        (name ∷ codes "run" ∷ codes "a" ∷ codes "b" ∷ codes "--expect" ∷ codes "r" ∷ []) r }
{}

/// The program's name and `wave` ask for the waveform of that plan, and with `--threads` for that of such a run; with
/// names behind them for that of each plan in these files.
pub fn wave_parses()
    ensures file { (name : List ℕ) → ParsesAs (name ∷ codes "wave" ∷ codes "a" ∷ [])
        (files (Wave false) 1 (codes "a" ∷ [])) }
    ensures one { (name : List ℕ) → ParsesAs (name ∷ codes "wave" ∷ []) (wave false) }
    ensures threads { (name : List ℕ) → ParsesAs (name ∷ codes "wave" ∷ codes "--threads" ∷ []) (wave true) }
{}

/// The program's name and `trace` ask for what happened in that plan's run, and with `--threads` in such a run; with
/// one name behind them in the run of the plan in this file. With two names they ask for nothing.
pub fn trace_parses()
    ensures file { (name : List ℕ) → ParsesAs (name ∷ codes "trace" ∷ codes "a" ∷ [])
        (files (Trace false) 1 (codes "a" ∷ [])) }
    ensures two { (name : List ℕ) (r : Request) → ¬ ParsesAs (name ∷ codes "trace" ∷ codes "a" ∷ codes "b" ∷ []) r }
    ensures one { (name : List ℕ) → ParsesAs (name ∷ codes "trace" ∷ []) (trace false) }
    ensures threads { (name : List ℕ) → ParsesAs (name ∷ codes "trace" ∷ codes "--threads" ∷ []) (trace true) }
{}

/// The program's name and `frames` ask for the bits of the frames in that plan's run, with `--threads` for those of
/// such a run, and with `--bits` byte by byte; with names behind them of each plan in these files.
pub fn frames_parses()
    ensures jobs { (name : List ℕ) → ParsesAs
        (name ∷ codes "frames" ∷ codes "a" ∷ codes "b" ∷ codes "--jobs" ∷ codes "2" ∷ [])
        (files (Frames false false) 2 (codes "a" ∷ codes "b" ∷ [])) }
    ensures one { (name : List ℕ) → ParsesAs (name ∷ codes "frames" ∷ []) (frames false false) }
    ensures threads { (name : List ℕ) → ParsesAs (name ∷ codes "frames" ∷ codes "--threads" ∷ [])
        (frames false true) }
    ensures bits { (name : List ℕ) → ParsesAs (name ∷ codes "frames" ∷ codes "--bits" ∷ []) (frames true false) }
{}

/// The program's name and `picture` ask for the picture of that plan's run: of all its bits, where nothing follows, or
/// from a bit on, or from one bit to another; with `--svg` for a drawing in SVG. With a name behind both bits they ask
/// for that of the plan in this file. A bit that no number of seven digits is, is refused.
pub fn picture_parses()
    ensures all { (name : List ℕ) → ParsesAs (name ∷ codes "picture" ∷ []) (picture 0 None false false false) }
    ensures first { (name : List ℕ) → ParsesAs (name ∷ codes "picture" ∷ codes "11" ∷ [])
        (picture 11 None false false false) }
    ensures both { (name : List ℕ) → ParsesAs (name ∷ codes "picture" ∷ codes "11" ∷ codes "75" ∷ [])
        (picture 11 (Some 75) false false false) }
    ensures threads { (name : List ℕ) → ParsesAs (name ∷ codes "picture" ∷ codes "--threads" ∷ codes "11" ∷ [])
        (picture 11 None false true false) }
    ensures svg { (name : List ℕ) → ParsesAs (name ∷ codes "picture" ∷ codes "--svg" ∷ [])
        (picture 0 None true false false) }
    ensures all_words { (name : List ℕ) → ParsesAs
        (name ∷ codes "picture" ∷ codes "11" ∷ codes "75" ∷ codes "--svg" ∷ codes "--threads" ∷ codes "--yes" ∷ [])
        (picture 11 (Some 75) true true true) }
    ensures file { (name : List ℕ) → ParsesAs
        (name ∷ codes "picture" ∷ codes "11" ∷ codes "75" ∷ codes "--svg" ∷ codes "a" ∷ [])
        (files (Picture 11 (Some 75) true false false) 1 (codes "a" ∷ [])) }
    ensures past { (name : List ℕ) (r : Request)
        → ¬ ParsesAs (name ∷ codes "picture" ∷ codes "10000000" ∷ []) r }
{}

/// The program's name and `candump` ask for what the nodes received in that plan's run, with error frames where
/// `--errors` stands; with names behind them of each plan in these files.
pub fn candump_parses()
    ensures file { (name : List ℕ) → ParsesAs (name ∷ codes "candump" ∷ codes "--errors" ∷ codes "a" ∷ [])
        (files (Candump true false) 1 (codes "a" ∷ [])) }
    ensures plain { (name : List ℕ) → ParsesAs (name ∷ codes "candump" ∷ []) (candump false false) }
    ensures errors { (name : List ℕ) → ParsesAs (name ∷ codes "candump" ∷ codes "--errors" ∷ [])
        (candump true false) }
    ensures threads { (name : List ℕ) → ParsesAs (name ∷ codes "candump" ∷ codes "--threads" ∷ [])
        (candump false true) }
{}

/// The program's name and `check` ask for the first mistake in the plan on the input, or what its run left out; with
/// names behind them that don't begin with `-` they ask so of each plan in these files. With `--strict` they ask that
/// nothing be left out.
pub fn check_parses()
    ensures input { (name : List ℕ) → ParsesAs (name ∷ codes "check" ∷ []) (check false) }
    ensures strict { (name : List ℕ) → ParsesAs (name ∷ codes "check" ∷ codes "--strict" ∷ []) (check true) }
    ensures files { (name : List ℕ) (names : List (List ℕ)) → HasNoFlag names
        → 1 ≤ length names → length names < 2 ^ 64
        → ParsesAs (name ∷ codes "check" ∷ names) (files (Check false) 1 names) }
{}

/// The program's name and `registers` ask what the registers of each node read as at the end of that plan's run, or
/// after the bit that is named; with one name behind it of the plan in this file. A bit past 9,999,999 is none.
pub fn registers_parses()
    ensures all { (name : List ℕ) → ParsesAs (name ∷ codes "registers" ∷ []) (registers None) }
    ensures bit { (name : List ℕ) → ParsesAs (name ∷ codes "registers" ∷ codes "75" ∷ []) (registers (Some 75)) }
    ensures file { (name : List ℕ) → ParsesAs (name ∷ codes "registers" ∷ codes "75" ∷ codes "a" ∷ [])
        (files (Registers (Some 75)) 1 (codes "a" ∷ [])) }
    ensures past { (name : List ℕ) (r : Request)
        → ¬ ParsesAs (name ∷ codes "registers" ∷ codes "10000000" ∷ []) r }
{}

/// The program's name and `plan` ask for the plan on the input as it is written; with one name behind them for the plan
/// in this file. With two names they ask for nothing.
pub fn plan_parses()
    ensures input { (name : List ℕ) → ParsesAs (name ∷ codes "plan" ∷ []) spelled_plan }
    ensures file { (name : List ℕ) → ParsesAs (name ∷ codes "plan" ∷ codes "a" ∷ []) (files Plan 1 (codes "a" ∷ [])) }
    ensures two { (name : List ℕ) (r : Request) → ¬ ParsesAs (name ∷ codes "plan" ∷ codes "a" ∷ codes "b" ∷ []) r }
{}

/// The program's name and `live` ask for a session that is driven by the lines of the input.
pub fn live_parses()
    ensures { (name : List ℕ) → ParsesAs (name ∷ codes "live" ∷ []) live }
{}

/// The program's name and `sweep` ask for a sweep of the plan on the input: of each node in each bit, where nothing
/// follows; of the node and the bits that are named; of two bits a run, and in several threads; with what the flags ask
/// for. One name is that of a file with the plan. A node that no plan has is refused.
pub fn sweep_parses()
    ensures all { (name : List ℕ) → ParsesAs (name ∷ codes "sweep" ∷ [])
        (sweep all_swept) }
    ensures named { (name : List ℕ) → ParsesAs
        (name ∷ codes "sweep" ∷ codes "--only" ∷ codes "1" ∷ codes "--from" ∷ codes "23" ∷ codes "--to=60" ∷ [])
        (sweep (record all_swept { node = Some 1; first = 23; last = 60 })) }
    ensures pairs { (name : List ℕ) → ParsesAs
        (name ∷ codes "sweep" ∷ codes "--pairs" ∷ codes "2" ∷ codes "--jobs=4" ∷ [])
        (sweep (record all_swept { pairs = Some 2; jobs = 4 })) }
    ensures flags { (name : List ℕ) → ParsesAs
        (name ∷ codes "sweep" ∷ codes "--changed" ∷ codes "--rows" ∷ codes "--yes" ∷ [])
        (sweep (record all_swept { changed = true; rows = true; meant = true })) }
    ensures kinds { (name : List ℕ) → ParsesAs
        (name ∷ codes "sweep" ∷ codes "--twice" ∷ codes "--lost" ∷ codes "--stuck" ∷ [])
        (sweep (record all_swept { twice = true; lost = true; stuck = true })) }
    ensures file { (name : List ℕ) → ParsesAs (name ∷ codes "sweep" ∷ codes "--changed" ∷ codes "a" ∷ [])
        (files (Sweep (record all_swept { changed = true })) 1 (codes "a" ∷ [])) }
    ensures past { (name : List ℕ) (r : Request)
        → ¬ ParsesAs (name ∷ codes "sweep" ∷ codes "--only" ∷ codes "8" ∷ []) r }
{}

/// The program's name, `sweep`, `--plan` and two numbers ask for the plan on the input with a strike more. With one
/// number, or with another option beside it, they ask for nothing.
pub fn a_struck_plan_parses()
    ensures numbers { (name : List ℕ)
        → ParsesAs (name ∷ codes "sweep" ∷ codes "--plan" ∷ codes "1" ∷ codes "59" ∷ []) (struck_plan 1 59) }
    ensures file { (name : List ℕ)
        → ParsesAs (name ∷ codes "sweep" ∷ codes "--plan" ∷ codes "1" ∷ codes "59" ∷ codes "a" ∷ [])
        (files (StruckPlan 1 59) 1 (codes "a" ∷ [])) }
    ensures one { (name : List ℕ) (r : Request)
        → ¬ ParsesAs (name ∷ codes "sweep" ∷ codes "--plan" ∷ codes "1" ∷ []) r }
    ensures beside { (name : List ℕ) (r : Request) → ¬ ParsesAs
        (name ∷ codes "sweep" ∷ codes "--rows" ∷ codes "--plan" ∷ codes "1" ∷ codes "59" ∷ []) r }
{}

/// The program's name and `--version` or `-V`, whatever follows, ask for the version: that is all that the parser says
/// of them, so they ask for no task.
pub fn version_is_asked_for()
    ensures long { (name : List ℕ) (more : List (List ℕ))
        → faults (name ∷ codes "--version" ∷ more) ≡ DisplayVersion ∷ [] }
    ensures short { (name : List ℕ) (more : List (List ℕ))
        → faults (name ∷ codes "-V" ∷ more) ≡ DisplayVersion ∷ [] }
{}

/// The program's name alone, or with `encode` alone, asks for nothing.
pub fn a_message_is_needed()
    ensures name { (name : List ℕ) (r : Request) → ¬ ParsesAs (name ∷ []) r }
    ensures encode { (name : List ℕ) (r : Request) → ¬ ParsesAs (name ∷ codes "encode" ∷ []) r }
{}
