// Nodes and service codes (types.rs).
ghost use Rattle.std.specs.Prelude.{◌≡◌};
ghost use Rattle.std.specs.Iterator.{YieldsFirst, item_count};
ghost use Rattle.session.specs.Entries.{nodes as node_list};
ghost use Rattle.session.specs.ServiceCode.{key_free};

// Whether a service is authentication-free: it holds a key, and a DES chain skips it.
pub fn is_key_free_service(service: u16) -> bool
    ensures { result ≡ key_free service }
{
    let attributes = service % 64;
    attributes % 2 == 1 && (9..24).contains(&attributes)
}

// The nodes of a list, two bytes each, in their order.
#[derive(Drop)]
pub(crate) struct Nodes<'a> {
    rest: &'a [u8],
}

impl Iterator for Nodes<'_> {
    type Item = u16;

    ghost next_gives = { YieldsFirst (λ s. node_list s.rest.now) };

    ghost remaining = { item_count (λ s. node_list s.rest.now) };

    fn next(&mut self) -> Option<u16> {
        let (node, rest) = self.rest.split_first_chunk::<2>()?;
        self.rest = rest;
        Some(u16::from_le_bytes(*node))
    }
}

impl<'a> Nodes<'a> {
    pub(crate) fn of(list: &'a [u8]) -> Self
        ensures { result.rest.now ≡ list.now }
    {
        Nodes { rest: list }
    }
}
