//! The tag groups of a processor: the mask, an update request, and the status that it comes to.
#![tactic(auto)]

ghost use Rattle.std.specs.Prelude.{◌≡◌, ◌≤◌, ◌<◌, ◌^◌, ◌↔◌, ℕ, Some, None, false, OnErr, IfOk, IfErr, IsTrue, IsSome, IsSomeAnd, is_some, is_ok};
ghost use Rattle.std.specs.Option.{option_map_or};
ghost use Rattle.tag_groups.specs.Settle.{opening_tags, requested, settled_tags, is_met, idle_groups, AreIdle};
ghost use Rattle.tag_groups.specs.declared.Request.{Request};

/// A tag status: the groups of the request's mask that had nothing outstanding, as bits, and how many commands the processor had issued when it was fixed.
#[derive(Clone, Copy, Debug, PartialEq, Eq)]
pub struct TagStatus {
    pub groups: u32,
    pub issued: u32,
}

/// An update request, with the mask as it stood when it was made.
#[derive(Clone, Copy, Debug, PartialEq, Eq)]
pub struct Request {
    /// 0 asks at once, 1 for any group, every other number for all.
    pub how: u32,
    pub mask: u32,
}

/// No status was fixed.
#[derive(Clone, Copy, Debug, PartialEq, Eq)]
pub struct NotReady;

/// The mask, a pending request and an unread status; group t is bit value 2^t.
#[derive(Clone, Copy, Debug, PartialEq, Eq)]
pub struct Tags {
    mask: u32,
    request: Option<Request>,
    status: Option<TagStatus>,
}

impl Tags {
    /// An empty mask, no request and no status.
    pub fn new() -> Tags
        ensures { result ≡ opening_tags }
    {
        Tags {
            mask: 0,
            request: None,
            status: None,
        }
    }

    /// Sets the mask. A pending request keeps the mask that it was made with.
    pub fn set_mask(&mut self, m: u32)
        ensures { self.new ≡ record self.old { mask = m } }
    {
        self.mask = m;
    }

    /// The mask.
    pub fn mask(&self) -> u32
        ensures { result ≡ self.now.mask }
    {
        self.mask
    }

    /// Makes a request (CBEA, "Tag-group status") with the mask as it stands, in place of a pending one and of an unread status; that it takes
    /// their place, and that every `how` above 1 asks for all groups, is this project's profile.
    pub fn request(&mut self, how: u32)
        ensures { self.new ≡ requested self.old how }
    {
        self.request = Some(Request {
            how,
            mask: self.mask,
        });
        self.status = None;
    }

    /// Fixes the status where a request is pending and its condition holds.
    ///
    /// `busy` has the groups with a command outstanding, and `issued` is how many commands were issued by now.
    pub fn settle(&mut self, busy: u32, issued: u32)
        ensures settled { self.new ≡ settled_tags busy issued self.old }
        ensures idle { (r : Request) → self.old.request ≡ Some r → self.new.request ≡ None → IsSomeAnd self.new.status (λ s. AreIdle busy r.mask s.groups) }
    {
        let Some(request) = self.request else {
            return;
        };
        if is_met(&request, busy) {
            self.request = None;
            self.status = Some(TagStatus {
                groups: idle_groups(request.mask, busy),
                issued,
            });
        }
    }

    /// The request that is pending, if there is one.
    pub fn asked(&self) -> Option<Request>
        ensures { result ≡ self.now.request }
    {
        self.request
    }

    /// Whether a request is pending.
    pub fn pending(&self) -> bool
        ensures { result ≡ is_some self.now.request }
    {
        self.request.is_some()
    }

    /// Whether `settle` would fix a status with these groups busy: a request is pending and its condition holds.
    pub fn would_settle(&self, busy: u32) -> bool
        ensures { result ≡ option_map_or (is_met busy) self.now.request false }
    {
        match self.request {
            Some(request) => is_met(&request, busy),
            None => false,
        }
    }

    /// The status that is fixed and wasn't read yet, if there is one.
    pub fn status(&self) -> Option<TagStatus>
        ensures { result ≡ self.now.status }
    {
        self.status
    }

    /// Whether a status is fixed and wasn't read yet.
    pub fn ready(&self) -> bool
        ensures { result ≡ is_some self.now.status }
    {
        self.status.is_some()
    }

    /// Takes the status. NotReady comes exactly where none is fixed, and then nothing changes.
    pub fn read(&mut self) -> Result<TagStatus, NotReady>
        ensures ready { is_ok result ≡ is_some self.old.status }
        ensures ok { IfOk result (λ status. self.old.status ≡ Some status) }
        ensures taken { self.new ≡ record self.old { status = None } }
    {
        self.status.take().ok_or(NotReady)
    }
}

/// Whether the request's condition holds: at once, for any group, or for all.
fn is_met(request: &Request, busy: u32) -> bool
    ensures { result ≡ is_met busy request.now }
{
    match request.how {
        0 => true,
        1 => request.mask == 0 || idle_groups(request.mask, busy) != 0,
        _ => request.mask & busy == 0,
    }
}

/// The groups of the mask with nothing outstanding.
fn idle_groups(mask: u32, busy: u32) -> u32
    ensures { result ≡ idle_groups busy mask }
{
    mask & !busy
}
