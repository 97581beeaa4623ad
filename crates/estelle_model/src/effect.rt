use crate::image::{Interaction, Part};
use estelle_tree::{IpAddr, Items, Path, Word};
use pascal_values::Values;

/// An output at an interaction point. A lost one had no connection to go over.
#[derive(Debug)]
pub struct Out {
    pub path: Path,
    pub ip: Word,
    pub name: Word,
    pub values: Values,
    pub lost: bool,
}

impl Drop for Out {
    fn drop(self) {
        let Out {
            path: _,
            ip: _,
            name: _,
            values: _,
            lost: _,
        } = self;
    }
}

/// What a block did to the situation beside its own records.
#[derive(Debug, Drop)]
pub enum Effect {
    /// Until it is applied, its item has the number 0 and it is not lost.
    Output {
        from: IpAddr,
        item: Interaction,
        out: Out,
    },
    Connect {
        a: IpAddr,
        b: IpAddr,
    },
    Disconnect {
        a: IpAddr,
    },
    Attach {
        upper: IpAddr,
        lower: IpAddr,
    },
    Detach {
        upper: IpAddr,
    },
    /// With the child as its `init` made it, and its interaction points in declaration order.
    Create {
        path: Path,
        part: Part,
        ips: Items<IpAddr>,
    },
    Remove {
        path: Path,
    },
}
