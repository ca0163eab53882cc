//! What the help of a command says below its words, as the page for `man` says it.

/// Of commands that take plans in files.
const FILES_SAID: &str = "- is standard input; a name that begins with - stands behind --.
Of several, each text has a line file NAME before it, in the order of names.
A file that can't be read has sja: can't read NAME, and the others are done.";

/// Of `trace`, `plan`, `registers` and `sweep`.
const FILE_SAID: &str = "- is standard input; a name that begins with - stands behind --.";

/// Of `check`.
const CHECK_SAID: &str = "check prints what run refuses, and one or two lines below:
where it is, what is written, what would be right (status 1).
Else it runs the plan in one thread, with status 0.
In version 3 it has the cause first, up to five such steps, and accesses that a
chip swallows.
Of more than 20 lines it prints 20.
--strict has status 1 where a line was printed.
- is standard input; a name that begins with - stands behind --.
Of several, each text has a line file NAME before it, in the order of names.
A file that can't be read has sja: can't read NAME, and the others are done.";

/// Of `picture`.
const PICTURE_SAID: &str = "- is standard input; a name that begins with - stands behind --.
Where FROM comes after TO or after the end picture prints nothing,
with --svg the legend alone.";

/// Of commands that take a message.
const MESSAGE_SAID: &str = "MESSAGE, TEXT: hexadecimal digits, two a byte, with spaces or without.
With a # it is can-utils' notation: 123#1122, eight digits where extended,
123#R2 where remote, _9 to _F behind a DLC of 9 to 15.";

/// Of `decode`.
const LINE_SAID: &str =
    "LINE: 0 for a dominant level, 1 for a recessive one; a whole line, acknowledged.
encode prints the ACK slot as the transmitter sends it, recessive.";

/// Of `filter`.
const FILTER_SAID: &str = "MODE is single or dual; ACR and AMR eight digits each, register 0 first.
A bit 1 of AMR isn't compared.";

/// Of `live`, the lines that it takes.
const LIVE_SAID: &str = "Lines:
  live VERSION BITS NODES  first: opens the session
  read K A                 reads address A of node K
  write K A V              writes byte V
  step K STEP              a plan's step
  run N                    N bits, or up to the first in which a line rises
  rest                     bits until all rest
  line                     which lines are active
  to K PLACE N             bits until node K is at this place, at most N
  place K                  where node K is
  strike K B               node K sees the other level in bit B
  answer K                 what node K's last step answered
  bits                     how many were run
  plan                     the plan so far
  end                      ends the session";

/// What the help of the command of this name says below its words; nothing of some.
pub(crate) fn details_of(name: &str) -> Option<&'static str> {
    match name {
        "run" | "wave" | "frames" | "candump" => Some(FILES_SAID),
        "trace" | "plan" | "registers" | "sweep" => Some(FILE_SAID),
        "check" => Some(CHECK_SAID),
        "picture" => Some(PICTURE_SAID),
        "encode" | "arbitrate" | "message" => Some(MESSAGE_SAID),
        "decode" => Some(LINE_SAID),
        "filter" => Some(FILTER_SAID),
        "live" => Some(LIVE_SAID),
        _ => None,
    }
}
