// Laws only: two slots in one frame loop, a slot at rest.

#![tactic(auto)]
