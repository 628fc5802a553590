//! What `--help` and `--version` print.

pub const HELP: &str = "overlay_live keeps layers of polygons and answers each line at once.

  overlay_live [--store FILE] [--create | --read-only] [--workers N]
               [--max-blocks N] [IN OUT]...
  overlay_live --help | --version

IN OUT           paths of one to four pairs; lines are read from IN, and their
                 replies go to OUT. Without a pair the one session is on
                 standard input and output.
--store FILE     keep layers and tiles in this file; without it all is lost at
                 the end
--create         make the file anew: it must be absent or empty
--read-only      read the file alone: what sessions put is lost at the end
--workers N      1 to 8 threads that build tiles; 2 where it is left out
--max-blocks N   the file has at most N blocks of 4,096 bytes, 1 to 1048576;
                 65536 where it is left out

It ends when all sessions have read their lines to the end. Status 0: all lines
are read, all replies written and, with a store that is not read alone, the last
version is in the file; 1: not so, or it could not begin; 2: wrong words.

PUT name wkt      DEFINE name = A & (B | C)   DROP name      BATCH n     SYNC
LOCATE name x y   GRID name x y step nx ny    WAIT name      LAYERS
EDGES name k      VERIFY name k               (the manual page has the rest)
";

pub const VERSION: &str = "overlay_live 1.0, file format 2\n";
