//! The residuals of patterns, by which sizes of policies are stated: definitions alone.
#![tactic(auto)]
