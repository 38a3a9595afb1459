//! What help and the version say. The script `asset` at the top of the repository prints the lines of these constants, so
//! that nothing is built for them, and tests compare them with what the program prints.

/// What `asset --help` prints.
pub const HELP: &str = "\
ASSET, a facility of transactions that can share their work

Usage: asset [<word> [--cap <n>]] < SCRIPT

Commands:
  run      Runs the script on standard input and writes its transcript (the default)
  steps    Writes each step with its reply, numbered by line and by entry
  prune    Writes the script that is left without dead groups
  groups   Writes the groups: who shared something with whom, and who with nobody
  sources  Writes where each value that was read comes from
  serial   Writes the script of those who committed, one after another
  waits    Writes who waits for whom when the script has ended
  picture  Draws the history as a picture, an SVG
  check    Names each bad line of the script on standard input, and why it is bad
  shell    Answers each line as it comes
  jobs     Runs the jobs of the job script on standard input by threads, and writes how each ended
  help     Print this message or the help of the given subcommand(s)

Options:
  -h, --help     Print help
  -V, --version  Print version

The output is written once the input has ended.

Exit status:
  0  every line was looked at, or help or the version was asked for
  1  the input or the output failed, memory ran out, or serial found something shared
  2  a line is bad, or an argument is refused
";

/// What `asset --version` prints.
pub const VERSION: &str = "\
asset 0.1.0
";
