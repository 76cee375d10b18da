// What holds of the link over many calls: the statements are in specs/, and nothing here runs.
#![tactic(auto)]
