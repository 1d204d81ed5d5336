//! What the helps of the commands say after their words and options.
ghost use Rattle.std.specs.Prelude.{◌≡◌, ◌==◌};
ghost use Rattle.std.specs.List.{before_first};

/// The version of the program, its first word, and the kit that proves and builds it.
pub(crate) const VERSION: &str = "0.1.0 (rattle-kit-13f logic dac8208d650f15bf)";

/// The version of the program alone.
pub(crate) fn version() -> &'static str
    ensures { result.now ≡ before_first (λ b. b == 32) VERSION.now }
{
    match VERSION.split_once(' ') {
        Some((version, _)) => version,
        None => VERSION,
    }
}

pub const PROGRAM: &str =
    "Without arguments it reads a program (Instruction List) from standard input, and after END_PROGRAM a
line NAME=VALUE for each input that has a value, and runs one scan:
  sunsite < examples/average.il

Status: 0 well; 1 refused, or the scan trapped; 2 no such command line; 3 a link failed";

pub(crate) const CHECK: &str =
    "Prints 'accepted' and 'budget N', the most instructions of a scan, or why the program is refused.
One of the files can be '-', standard input:
  sunsite check examples/site.toml examples/limiter.il

Status: 0 accepted; 1 refused; 2 no such command line";

pub(crate) const EXPLAIN: &str =
    "Prints the program with its instructions and what is known before each of them, to the one that is
refused where one is. One of the files can be '-', standard input:
  sunsite explain examples/site.toml examples/limiter.il
  sunsite explain examples/site.toml examples/limiter.il --listing
With --trace a trace of 'run' is read, and last comes which numbers each variable had in it:
  sunsite explain examples/site.toml examples/limiter.il --trace trace.csv

Status: 0 accepted; 1 refused; 2 no such command line";

pub(crate) const SIMULATE: &str =
    "Prints 'listening PORT', and ends with its connections. The plant goes on from one connection to the next. One of the
files can be '-', standard input:
  sunsite simulate examples/plant.toml
  sunsite simulate examples/plant.toml --port 1602 --connections 0

Status: 0 served to its end; 1 refused; 2 no such command line; 3 the link failed";

pub(crate) const RUN: &str =
    "Prints a line for each scan, and then what a client of the gateway sees. SITE or PROGRAM can be '-',
standard input. --trace writes what each scan read, stored and wrote into a file for a spreadsheet, and --report into a
page with charts; both are written anew at each run:
  sunsite run examples/site.toml examples/limiter.il --plant examples/plant.toml --scans 3

Status: 0 well; 1 refused; 2 no such command line; 3 a link failed";

pub(crate) const SURVEY: &str =
    "Connects to each device, finds its map and reads what the site file names, once; nothing is written. Prints a row for each
device, tag and sum, with what is wrong and what to do, and last how many things are wrong. SITE or PROGRAM can be '-',
standard input:
  sunsite survey site.toml --every 2000
  sunsite survey site.toml program.il --devices 192.0.2.7:502

Status: 0 nothing is wrong; 1 something is, or refused; 2 no such command line; 3 the clock or a socket can't be had";

pub(crate) const MAP: &str =
    "Prints a row for each point of the gateway's own map, as it is handed to those who read and write it: its registers, model,
kind and factor, who may write it, what it shows, its range, default and lapse. SITE can be '-', standard input:
  sunsite map site.toml
  sunsite map site.toml --html > registers.html

Status: 0 printed; 1 refused; 2 no such command line";

pub(crate) const SERVE: &str =
    "Prints 'started TIME ..', 'accepted', 'budget N' and 'listening ADDR', and then a line for each change, which begins with
the seconds since the start, or with --times utc with the time of day. It ends after --scans N, or by a signal. SITE or
PROGRAM can be '-', standard input:
  sunsite serve examples/site.toml examples/limiter.il --plant examples/plant.toml

Status: 0 well; 1 refused; 2 no such command line; 3 the clock or a socket can't be had";

pub(crate) const PROBE: &str = "Prints each model with its points that are present, and 'end ADDR':
  sunsite probe 40123 --unit 1
  sunsite probe 192.0.2.7:502 --timeout 2000

Status: 0 well; 1 refused; 2 no such command line; 3 the link failed";
