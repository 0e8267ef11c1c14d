//! The texts of help.

pub(crate) const ABOUT: &str =
    "Runs a log of procedure calls, in parallel and always with the same outcome";

pub(crate) const RUN_ABOUT: &str = "Runs the log on standard input and prints its report";

pub(crate) const EXAMPLE: &str = "Example:
  calvin run --workers 8 bank.json < calls.log

bank.json holds tables, procedures and rows. Each line of calls.log is a call, as
  [\"call\",\"pay\",[1,2,30]]
`calvin run --help` lists the options.

Exit status:
  0  all is well
  1  the setup or the log was refused
  2  the command line was refused, or help or the version was asked for
  3  no memory
  4  reading or writing failed, or a thread was refused
  5  the reports differ
  6  a feed that was followed has ended";

/// The version of the program. Setups, logs and reports have forms of version 1, catalogues of versions 1 and 2.
pub(crate) const VERSION: &str = "1.0.0";

pub(crate) const RUN_EXAMPLE: &str = "Examples:
  calvin run bank.json < calls.log
  calvin run --workers 8 --coarsen 0 bank.json < calls.log
  calvin run --alone bank.json < calls.log
  calvin run --progress bank.json < calls.log
  tail -f calls.log | calvin run --follow bank.json
  calvin run --rows rows.json bank.json < later.log

The options but `--follow` and `--rows` change the speed of a run and what standard error tells of it, and never its
report. With `--follow`, where nothing more comes, calls after the last cut are not run and no end line is written.
With `--rows` the run starts from the rows that `calvin rows --document` has printed.

Exit status:
  0  the report is whole
  1  the setup or the log was refused; standard error has the fault
  2  the command line was refused, or help was asked for
  3  no memory
  4  reading or writing failed, or a thread was refused
  6  the feed that was followed has ended; standard error says at which line";

pub(crate) const ROWS_ABOUT: &str =
    "Runs the log on standard input and prints the rows that it leaves";

pub(crate) const ROWS_EXAMPLE: &str = "Examples:
  calvin rows bank.json < calls.log
  calvin rows bank.json < calls.log | sha256sum
  calvin rows --table acct bank.json < calls.log
  calvin rows --document bank.json < calls.log > rows.json
  calvin rows --document --follow bank.json < calls.log > rows.json

prints a line `TABLE KEY V1 .. Vn` for each row, tables in declared order and keys ascending, and no report.
The digest of all lines is that of the rows in the report's end line, if the setup has no digests by partition.
With `--document` it prints the JSON text that `--rows` reads. With `--follow` it prints the rows after the last cut,
and standard error says how many requests are carried then, if any are.

Exit status:
  0  the rows are printed
  1  the setup or the log was refused, or no table has the name; standard error says so
  2  the command line was refused, or help was asked for
  3  no memory
  4  reading or writing failed, or a thread was refused
  6  the rows are printed, and the feed that was followed has ended; standard error says at which line";

pub(crate) const FILTER_ABOUT: &str =
    "Copies the lines of the log on standard input that a run would take, calls and cuts";

pub(crate) const FILTER_EXAMPLE: &str = "Example:
  calvin filter bank.json < tried.log > calls.log

tells each other line on standard error as `fault N line L`, and runs nothing. The options change nothing.

Exit status:
  0  each line was copied
  1  the setup was refused, or some line was not copied; standard error has the faults
  2  the command line was refused, or help was asked for
  3  no memory
  4  reading or writing failed";

pub(crate) const REPLICAS_ABOUT: &str =
    "Runs the log on standard input and compares its report with another replica's";

pub(crate) const REPLICAS_EXAMPLE: &str = "Example:
  calvin replicas bank.json report.txt < calls.log

prints `same`, or `differ at byte N` with the first place, from 0, where the two differ or one ends.

Exit status:
  0  the reports are the same
  1  the setup or the log was refused; standard error has the fault
  2  the command line was refused, or help was asked for
  3  no memory
  4  reading or writing failed, or a thread was refused
  5  the reports differ";

pub(crate) const LOCKS_ABOUT: &str =
    "Prints the lock requests of the first batch of the log on standard input";

pub(crate) const LOCKS_EXAMPLE: &str = "Example:
  calvin locks bank.json < calls.log

prints a line `NO MODE RESOURCE` for each request, and runs nothing.

Exit status:
  0  the requests are printed
  1  the setup or the log was refused; standard error has the fault
  2  the command line was refused, or help was asked for
  3  no memory
  4  reading or writing failed";

pub(crate) const CHECK_ABOUT: &str =
    "Reads a setup, and says how many tables, procedures and rows it has";

pub(crate) const CHECK_EXAMPLE: &str = "Example:
  calvin check bank.json

prints `ok T tables P procedures R rows`, or the setup's first fault. The options change nothing.

Exit status:
  0  the setup breaks no rule
  1  the setup was refused; standard error has the fault
  2  the command line was refused, or help was asked for
  3  no memory
  4  reading or writing failed";

pub(crate) const REPORT_HELP: &str = "The file of the other replica's report";

pub(crate) const SETUP_HELP: &str = "The file of tables, procedures and rows, in JSON";

pub(crate) const PROGRESS_HELP: &str =
    "Tell on standard error how many calls are settled, and how they ended";

pub(crate) const FOLLOW_HELP: &str =
    "Take the log for a feed without an end: run nothing after its last cut";

pub(crate) const DOCUMENT_HELP: &str = "Print the rows as the JSON text that `--rows` reads";

pub(crate) const ROWS_HELP: &str = "Start from the rows in this file, in place of the setup's";

pub(crate) const ALONE_HELP: &str = "Run on one thread, without workers and lanes";

pub(crate) const TABLE_HELP: &str = "Print the rows of this table alone";

pub(crate) const WORKERS_HELP: &str = "Worker threads, 1 to 16";

pub(crate) const LANES_HELP: &str = "Jobs that may be out to workers at a time, 1 to 64";

pub(crate) const COARSEN_HELP: &str =
    "Rows of a partition, or partitions of a table, that a call locks one by one, 0 to 65535";

pub(crate) const ARENA_HELP: &str = "Lock requests that there is room for at a time, 1 to 1048576";
