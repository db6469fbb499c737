// Shares of a time slice (request Ten): the definition of each share is in specs/, with cards. Here what it shares with the code.
#![tactic(auto)]

// The most tunnels of a slice.
pub const TUNNELS: usize = 64;
