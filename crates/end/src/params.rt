ghost use Rattle.std.specs.Prelude.{◌≡◌};
ghost use Rattle.end.specs.Rules.{params_keep};

/// The parameters of one end.
#[derive(Clone, Copy, Debug)]
#[repr(C)]
pub struct Params {
    /// C, receive credit in messages.
    pub credit: u32,
    /// B, messages kept for sending.
    pub keep: u32,
    /// k, the longest message.
    pub longest: u32,
    pub maxstat: u32,
    pub maxpd: u32,
}

impl Params {
    /// They are in range.
    pub fn keep_rules(self) -> bool
        ensures { result ≡ params_keep self }
    {
        (1..=1_024).contains(&self.credit)
            && (1..=1_024).contains(&self.keep)
            && self.longest <= pdu::Sd::MAX_K
            && (3..=67).contains(&self.maxstat)
            && self.maxstat % 2 == 1
            && (1..=1_024).contains(&self.maxpd)
    }
}
