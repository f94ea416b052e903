//! The texts of the program.

/// The usage, for standard error.
pub const USAGE: &str = "\
usage: cbfsseal [-v] [--allow-unhashed] IMAGE
       cbfsseal --help | --version
";

/// The output of `--version`.
pub const VERSION: &str = "cbfsseal 3.2\n";

/// The text of `--help`.
pub const HELP: &str = "\
usage: cbfsseal [-v] [--allow-unhashed] IMAGE

Renews the two digests that the bootblock of a board with CBFS verification
compares: that of the metadata of all components of COREBOOT, and that of the
flash map. Nothing else is changed. Run it after the last change of an image.

  -v                    print both digests, and whether they were right before
  --allow-unhashed      accept components without a digest of their content,
                        which no firmware loads
  -h, --help            print this help
  --version             print the version

Exit status: 0 if both digests are right now, 1 if the image is refused,
2 for a bad command line.
Example: cbfsseal coreboot.rom
";
