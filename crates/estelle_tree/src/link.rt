use crate::Path;

/// An interaction point of an instance. Those of an instance are numbered from 0, external ones first,
/// in declaration order.
#[derive(Debug)]
pub struct IpAddr {
    pub path: Path,
    pub ip: u32,
}

impl Drop for IpAddr {
    fn drop(self) {
        let IpAddr { path: _, ip: _ } = self;
    }
}

/// How two interaction points are linked (ISO/IEC 9074).
#[derive(Clone, Copy, Debug, PartialEq, Eq)]
pub enum LinkKind {
    Connection,
    Attachment,
}

/// A link of two interaction points; of an attachment the first is the upper one.
#[derive(Debug)]
pub struct Link {
    pub kind: LinkKind,
    pub first: IpAddr,
    pub second: IpAddr,
}

impl Drop for Link {
    fn drop(self) {
        let Link {
            kind: _,
            first: _,
            second: _,
        } = self;
    }
}
