//! What is told of the bytes of a sound file.

ghost use Rattle.file_checker.specs.Laws.{ClosedIsToldSound, SoundIsTold};

/// Of the bytes of a sound file no other verdict is right than that they are sound; so a file that
/// was closed is found sound, whatever a check of it met on the way. It does nothing.
pub fn sound_files_are_told()
    ensures sound { SoundIsTold }
    ensures closed { ClosedIsToldSound }
{}
