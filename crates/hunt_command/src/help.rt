//! How the program is used.

/// The text of `--help`.
pub const HELP: &[u8] = b"usage: hunt MACHINE [OPTION..]
       hunt MACHINE RUNS [SEED] [OPTION..]
       hunt MACHINE each [RUNS [SEED]] [--runs N] [--seed S] [--from K]
       hunt MACHINE record K [SEED] [--seed S]

Runs a machine many times under random schedules, and reports what went wrong. `each` prints for each run how it ends and its first race, or
whether it is settled. `record` prints run K as `cell run` does.

  --runs N       the number of runs, 1 to 1,000,000 (default 1,000, or fewer if they are long: the hunt ends after 200, 300, .. runs as soon as
                 these have 20,000,000 steps together; 200 for `each`)
  --time S       end the hunt after S seconds, 1 to 1,000,000; without --runs it makes up to 1,000,000 runs
  --seed S       the seed of the random schedules (default 1)
  --from K       the number of the first run (default 0)
  --jobs N       the number of threads, 1 to 256 (default: one for each core)
  --expect FILE  each line of FILE has to be among the states of every run
  --pass FILE    the races in FILE, as hunt prints them, aren't reported
  --warn WHAT    what to do with warnings, such as a signal that is lost: `print` them (default), look for `none`, or `error`: print them, and count
                 them as failures
  --until FILE   end the hunt once FILE exists, and report on the runs made so far
  --all          print all findings (failures and warnings), not only the first four
  --tools DIR    the folder of the tools in the commands that the report prints (default tools)
  --json         print one JSON object a line
  --help         print this text

The exit status of a hunt is 1 if a run has a race, a deadlock, a livelock, a fault or a halt, spends its budget, or misses an expected line, or,
with --warn error, has a warning, and that of `each` is 1 if a run has a race. Otherwise it is 0. With 2 to 7 the report is missing or incomplete.
";
