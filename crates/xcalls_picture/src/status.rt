ghost use Rattle.std.specs.Prelude.{◌≡◌};
ghost use Rattle.xcalls_picture.specs.Statuses.{picture_status_number};

/// How the program ended.
#[derive(Clone, Copy, Debug)]
pub enum PictureStatus {
    Drawn,
    /// The text is too long, or doesn't begin with a line of a journal.
    Refused,
    /// The command line has a word.
    Usage,
    ReadFault,
    WriteFault,
    NoMemory,
}

impl PictureStatus {
    /// The exit status, as `xcalls` has it.
    pub fn number(self) -> u8
        ensures { result ≡ picture_status_number self }
    {
        match self {
            PictureStatus::Drawn => 0,
            PictureStatus::Refused => 1,
            PictureStatus::Usage => 2,
            PictureStatus::ReadFault => 3,
            PictureStatus::WriteFault => 4,
            PictureStatus::NoMemory => 5,
        }
    }
}
