//! The texts of the program.

/// The usage, for standard error.
pub const USAGE: &str = "\
usage: cbfscheck [OPTIONS] IMAGE
       cbfscheck [OPTIONS] OLD NEW
       cbfscheck --help | --version
";

/// The output of `--version`.
pub const VERSION: &str = "cbfscheck 3.2\n";

/// The text of `--help`.
pub const HELP: &str = "\
usage: cbfscheck [OPTIONS] IMAGE
       cbfscheck [OPTIONS] OLD NEW

Checks that an image's flash map and file systems (CBFS) are sound, and lists
what flashing NEW over OLD changes. Images are never written.

  -r AREA[,AREA..]      check these areas as a CBFS; each has to exist
  --need AREA:NAME[@OFFSET][,..]
                        require this component; its content begins at OFFSET
                        (decimal, 0x.., from the start of the area), or ends
                        with the area (end)
  --all-hashed          require a digest for each component
  --list                also list all areas, and the components of checked areas
  -v                    also list components without a digest, and more than
                        16 rows of a kind
  --json                print the report as one JSON document
  @FILE                 read options from FILE, one in each line
  -h, --help            print this help
  --version             print the version

With OLD and NEW:
  --flash               check before flashing: --keep-preserved, and the images
                        are of one board
  --keep AREA[,AREA..]  require that these areas do not change
  --keep-preserved      require that no area with the flag PRESERVE changes

Exit status: 0 if nothing is bad, 1 if a finding is bad, 2 without a complete report.
Example: cbfscheck --flash -r COREBOOT chip.rom image.rom
";
