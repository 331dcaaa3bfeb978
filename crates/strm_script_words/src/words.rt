//! The words of flags, of modes, of sides and of errors.
use crate::keyword::Keyword;
use strm_head_calls::{GetFlag, Priority, PutFlag, Wanted};
use strm_msg::{Errno, Prot, ReadMode, Side};

/// The priority of a putmsg.
impl Keyword for Priority {
    ghost use Rattle.strm_script_words.specs.Words.{all_priorities, priority_word};

    ghost word = { priority_word };

    ghost all = { all_priorities };

    fn word(self) -> &'static [u8] {
        match self {
            Priority::Norm => b"norm",
            Priority::Hipri => b"hipri",
        }
    }

    fn all() -> &'static [Priority] {
        &[Priority::Norm, Priority::Hipri]
    }
}

/// The flag of a putpmsg.
impl Keyword for PutFlag {
    ghost use Rattle.strm_script_words.specs.Words.{all_puts, put_word};

    ghost word = { put_word };

    ghost all = { all_puts };

    fn word(self) -> &'static [u8] {
        match self {
            PutFlag::Zero => b"zero",
            PutFlag::Band => b"band",
            PutFlag::Hipri => b"hipri",
        }
    }

    fn all() -> &'static [PutFlag] {
        &[PutFlag::Zero, PutFlag::Band, PutFlag::Hipri]
    }
}

/// The message that a getmsg or a peek takes.
impl Keyword for Wanted {
    ghost use Rattle.strm_script_words.specs.Words.{all_wanted, wanted_word};

    ghost word = { wanted_word };

    ghost all = { all_wanted };

    fn word(self) -> &'static [u8] {
        match self {
            Wanted::Any => b"any",
            Wanted::Hipri => b"hipri",
        }
    }

    fn all() -> &'static [Wanted] {
        &[Wanted::Any, Wanted::Hipri]
    }
}

/// The flag of a getpmsg.
impl Keyword for GetFlag {
    ghost use Rattle.strm_script_words.specs.Words.{all_gets, get_word};

    ghost word = { get_word };

    ghost all = { all_gets };

    fn word(self) -> &'static [u8] {
        match self {
            GetFlag::Zero => b"zero",
            GetFlag::Any => b"any",
            GetFlag::Band => b"band",
            GetFlag::Hipri => b"hipri",
        }
    }

    fn all() -> &'static [GetFlag] {
        &[GetFlag::Zero, GetFlag::Any, GetFlag::Band, GetFlag::Hipri]
    }
}

/// The treatment of message bounds by reads.
impl Keyword for ReadMode {
    ghost use Rattle.strm_script_words.specs.Words.{all_modes, mode_word};

    ghost word = { mode_word };

    ghost all = { all_modes };

    fn word(self) -> &'static [u8] {
        match self {
            ReadMode::Rnorm => b"rnorm",
            ReadMode::Rmsgn => b"rmsgn",
            ReadMode::Rmsgd => b"rmsgd",
        }
    }

    fn all() -> &'static [ReadMode] {
        &[ReadMode::Rnorm, ReadMode::Rmsgn, ReadMode::Rmsgd]
    }
}

/// The treatment of control by reads.
impl Keyword for Prot {
    ghost use Rattle.strm_script_words.specs.Words.{all_prots, prot_word};

    ghost word = { prot_word };

    ghost all = { all_prots };

    fn word(self) -> &'static [u8] {
        match self {
            Prot::Norm => b"norm",
            Prot::Dat => b"dat",
            Prot::Dis => b"dis",
        }
    }

    fn all() -> &'static [Prot] {
        &[Prot::Norm, Prot::Dat, Prot::Dis]
    }
}

/// The side of a queue.
impl Keyword for Side {
    ghost use Rattle.strm_script_words.specs.Words.{all_queues, side_word};

    ghost word = { side_word };

    ghost all = { all_queues };

    fn word(self) -> &'static [u8] {
        match self {
            Side::Rd => b"rd",
            Side::Wr => b"wr",
        }
    }

    fn all() -> &'static [Side] {
        &[Side::Rd, Side::Wr]
    }
}

/// The sides that a flush is for, read and write: `rw`, `r`, `w`, or `none`.
impl Keyword for (bool, bool) {
    ghost use Rattle.strm_script_words.specs.Words.{all_sides, flush_word};

    ghost word = { λ sides. flush_word sides.0 sides.1 };

    ghost all = { all_sides };

    fn word(self) -> &'static [u8] {
        match self {
            (true, true) => b"rw",
            (true, false) => b"r",
            (false, true) => b"w",
            (false, false) => b"none",
        }
    }

    fn all() -> &'static [(bool, bool)] {
        &[(true, true), (true, false), (false, true), (false, false)]
    }
}

/// Whether an ioctl is dropped whose answer has not come: `drop`, or `keep`.
impl Keyword for bool {
    ghost use Rattle.strm_script_words.specs.Words.{all_drops, drop_word};

    ghost word = { drop_word };

    ghost all = { all_drops };

    fn word(self) -> &'static [u8] {
        if self { b"drop" } else { b"keep" }
    }

    fn all() -> &'static [bool] {
        &[true, false]
    }
}

/// The names of errors, by which scripts name them.
impl Keyword for Errno {
    ghost use Rattle.strm_msg.specs.Text.{name_of};
    ghost use Rattle.strm_script_words.specs.Words.{all_errnos};

    ghost word = { name_of };

    ghost all = { all_errnos };

    fn word(self) -> &'static [u8] {
        self.name().as_bytes()
    }

    fn all() -> &'static [Errno] {
        &[
            Errno::EBADF,
            Errno::ENOSR,
            Errno::EINVAL,
            Errno::ERANGE,
            Errno::ENXIO,
            Errno::EBADMSG,
            Errno::ENODATA,
            Errno::EAGAIN,
            Errno::ETIME,
            Errno::EIO,
            Errno::EPROTO,
        ]
    }
}
