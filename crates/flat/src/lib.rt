// The DJ sweep is flat near its middle: laws only.

#![tactic(auto)]
