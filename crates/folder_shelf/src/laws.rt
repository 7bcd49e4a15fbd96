//! What may become of the files of a disk, whatever it does.
ghost use Rattle.folder_shelf.specs.FolderLaws.{each_disk_goes_so, each_way_has_its_disk};

/// What `replay` says for every disk is what may become of files by steps from the one to the
/// next: on each disk the calls lead along such steps, and each way along such steps is that on
/// some disk. It does nothing.
pub fn folder_laws()
    ensures steps { each_disk_goes_so }
    ensures disks { each_way_has_its_disk }
{}
