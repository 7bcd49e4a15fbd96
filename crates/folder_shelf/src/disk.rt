//! What no code can read of a disk.
ghost use Rattle.std.specs.Prelude.{List, ℕ, true, [], refl};
ghost use Rattle.page_store.specs.DeviceFile.{absent};
ghost use Rattle.page_store.specs.Images.{Leaves};
ghost use Rattle.folder_shelf.specs.Replay.{Unseen};

/// What the file of each path held at first, and what a call that failed left. What is proved for
/// any `Disk` is proved for every disk.
pub trait Disk {
    ghost unseen: { Unseen };

    /// What a read would have given at first is one of the images.
    ghost sound: { (path : List ℕ) → Leaves (unseen.first path) (unseen.first path).seen };
}

/// A disk with no file at first, for a program whose own clauses speak of none.
pub struct EmptyDisk;

impl Disk for EmptyDisk {
    ghost unseen = { record { first = λ _. absent; came = λ _. true; torn = λ _. [] } };

    ghost sound = { λ _. refl };
}
