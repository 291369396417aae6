ghost use Rattle.gtfs_cli.specs.FilesInFolders.{IsFileOf};

// The folder and the name of a file: what stands before the last `/` of its path and
// after it. A path without one names a file of the folder `.`; where the only one is the
// first character, the folder is `/`.
pub(crate) fn cut_path(path: &str) -> (&str, &str)
    ensures { IsFileOf path.now result.0.now result.1.now }
{
    match path.rsplit_once('/') {
        None => (".", path),
        Some(cut) if cut.0.is_empty() => ("/", cut.1),
        Some(cut) => cut,
    }
}
