//! The notes that `--help` ends with.

/// Examples, the exit statuses, and what is said of files.
pub const NOTES: &str = "\
Examples:
  hunkravy keygen backup.key
  hunkravy seal -k backup.key backup.tar backup.sealed
  hunkravy check -k backup.key backup.sealed
  hunkravy open -k backup.key backup.sealed restored.tar
  tar -cf - docs | hunkravy seal -k backup.key - docs.sealed
  hunkravy open -k backup.key docs.sealed docs.tar
  hunkravy open -k backup.key --from 1000000 --length 512 docs.sealed part
  hunkravy rekey -k backup.key -n new.key docs.sealed docs.new

Exit status:
  0  success
  1  the sealed file is rejected, or --from is past the end of the contents
  2  the command line is wrong
  3  any other failure: I/O, memory, a bad key file, or a rejected OUT
  127  the processor is older than x86-64-v2

Files:
  Outputs get mode 0600. File names must be UTF-8.
  OUT is first written in its folder as .OUT.hunkravy- and 16 hexadecimal digits,
  and gets its name when it is complete. An interrupted run leaves that file. It may
  hold plaintext or a key: delete it, unless a run is still writing it. To find all:
  find . -name '.*.hunkravy-*'. Only --force replaces an existing file.
  In a pipeline, seal cannot see that the command before it failed.
  A key file has 64 hexadecimal digits and a line feed. -k - reads the key from
  standard input: age -d key.age | hunkravy open -k - IN OUT
  On standard output, contents are written while the file is being verified: use
  them only if the exit status is 0.";
