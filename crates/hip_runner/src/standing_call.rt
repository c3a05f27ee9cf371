use hip_tree::Site;

/// A call that has not returned: its site, and how many steps were taken before it.
#[derive(Clone, Copy)]
pub struct StandingCall {
    pub site: Site,
    pub birth: u128,
}
