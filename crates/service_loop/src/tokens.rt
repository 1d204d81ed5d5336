//! Under which tokens the system tells of sockets.
ghost use Rattle.std.specs.Prelude.{◌≡◌, ℕ, ◌+◌, ◌<◌, ◌^◌};
ghost use Rattle.service_loop.specs.Tokens.{line_owner, owner_of, page_owner};
ghost use Rattle.service_loop.specs.declared.tokens.Owner.TheVariants as owner;

/// The door's token.
pub(crate) const DOOR: usize = 0;

/// The token of the door for those who look: theirs are all from here on.
pub(crate) const PAGE_DOOR: usize = 0x8000_0000_0000_0000;

/// Whose a socket is.
#[derive(Clone, Copy)]
pub(crate) enum Owner {
    /// The door's, where clients come to.
    Door,
    /// That of the connection to devices of this number.
    Link(usize),
    /// That of the client at this place.
    Client(usize),
    /// The door's, where those come who look.
    PageDoor,
    /// That of the one who looks at this place.
    Page(usize),
}

/// The tokens of a service's sockets, for so many connections to devices.
#[derive(Clone, Copy)]
pub(crate) struct SocketTokens {
    links: usize,
}

impl SocketTokens {
    pub(crate) fn new(links: usize) -> SocketTokens
        ensures { result ≡ record { links = links } }
    {
        SocketTokens { links }
    }

    /// The token of a connection to devices: the system's word of it is for just that connection.
    pub(crate) fn of_link(&self, number: usize) -> usize
        ensures { number < self.now.links → number + 1 < 2 ^ 63 → owner_of self.now.links result ≡ owner.Link number }
    {
        number.saturating_add(1)
    }

    /// The token of the client at a place: the system's word of it is for just that client.
    pub(crate) fn of_client(&self, place: usize) -> usize
        ensures { place + self.now.links + 1 < 2 ^ 63 → owner_of self.now.links result ≡ owner.Client place }
    {
        place.saturating_add(self.links).saturating_add(1)
    }

    /// The token of the one who looks at a place: the system's word of it is for just that one.
    pub(crate) fn of_page(&self, place: usize) -> usize
        ensures { place + 1 < 2 ^ 63 → owner_of self.now.links result ≡ owner.Page place }
    {
        place.saturating_add(1).saturating_add(PAGE_DOOR)
    }

    /// Whose socket a token is for.
    pub(crate) fn owner(&self, token: usize) -> Owner
        ensures { result ≡ owner_of self.now.links token }
    {
        match token.checked_sub(PAGE_DOOR) {
            Some(number) => page_owner(number),
            None => self.line_owner(token),
        }
    }

    fn line_owner(&self, token: usize) -> Owner
        ensures { result ≡ line_owner self.now.links token }
    {
        let Some(number) = token.checked_sub(1) else {
            return Owner::Door;
        };
        if number < self.links {
            Owner::Link(number)
        } else {
            Owner::Client(number - self.links)
        }
    }
}

fn page_owner(number: usize) -> Owner
    ensures { result ≡ page_owner number }
{
    match number.checked_sub(1) {
        Some(place) => Owner::Page(place),
        None => Owner::PageDoor,
    }
}
