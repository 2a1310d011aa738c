// What request §1 says of drawings, stated over texts and proved of the definitions themselves. There is no code here.
#![tactic(auto)]
