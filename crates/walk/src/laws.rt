// The theorems of this crate: each function asks for the proof of the statement that its contract names.
ghost use Rattle.walk.specs.Promise.{NotBeyond, BytesTellTheWalk, CheckingIsExact};

pub fn not_beyond() -> u8
    ensures { NotBeyond }
{
    0
}

pub fn bytes_tell_the_walk() -> u8
    ensures { BytesTellTheWalk }
{
    0
}

pub fn checking_is_exact() -> u8
    ensures { CheckingIsExact }
{
    0
}
