//! The texts of a small office, on which the tests of all crates run.
#![tactic(auto)]

/// Five persons, of whom `root` is an operator, and the group `clerks` of `anna` and `ben`.
pub const PEOPLE: &str = "\
[[person]]
name = \"anna\"
[[person]]
name = \"ben\"
[[person]]
name = \"cora\"
[[person]]
name = \"dan\"
[[person]]
name = \"root\"
operator = true
[[group]]
name = \"clerks\"
members = [\"anna\", \"ben\"]
";

/// Ten task models of this office: with one potential owner, with several and with none, composite
/// ones, one that is decided by votes, and two with deadlines.
pub const MODELS: &str = "\
[[model]]
name = \"unit\"
potentialOwners = \"group('clerks')\"
administrators = \"user('cora')\"
skipable = true
[[model]]
name = \"solo\"
potentialOwners = \"user('anna')\"
delegation = \"nobody\"
[[model]]
name = \"shut\"
potentialOwners = \"user('anna')\"
excludedOwners = \"user('anna')\"
administrators = \"user('cora')\"
[[model]]
name = \"pair\"
potentialOwners = \"union(user('anna'), user('ben'))\"
[[model]]
name = \"both\"
potentialOwners = \"user('anna')\"
composition = \"parallel\"
instantiation = \"automatic\"
sub = [{name = \"x\", model = \"unit\"}, {name = \"y\", model = \"unit\"}]
[[model]]
name = \"seq\"
potentialOwners = \"user('anna')\"
instantiation = \"automatic\"
sub = [{name = \"x\", model = \"unit\"}, {name = \"y\", model = \"solo\"}]
[[model]]
name = \"ballot\"
potentialOwners = \"group('clerks')\"
output = [{name = \"vote\", kind = \"text\"}]
[[model]]
name = \"vote\"
potentialOwners = \"user('anna')\"
composition = \"parallel\"
instantiation = \"automatic\"
completion = \"automatic\"
output = [{name = \"decision\", kind = \"text\"}]
sub = [{name = \"x\", model = \"ballot\"}, {name = \"y\", model = \"ballot\"}, {name = \"z\", model = \"ballot\"}]
[[model.finish]]
when = \"countText('vote', 'yes') >= 2\"
set = [{part = \"decision\", from = \"vote\", with = \"voteOnString\", percent = 50}]
[[model]]
name = \"timed\"
potentialOwners = \"user('anna')\"
[[model.deadline]]
name = \"one\"
kind = \"completion\"
for = \"PT10S\"
escalation = [{name = \"tell\", notify = \"user('cora')\"}, {name = \"move\", reassign = \"user('ben')\"}, {name = \"more\", reassign = \"user('cora')\"}]
[[model.deadline]]
name = \"two\"
kind = \"completion\"
for = \"PT10S\"
escalation = [{name = \"tell\", notify = \"user('dan')\"}]
[[model]]
name = \"late\"
potentialOwners = \"union(user('anna'), user('ben'))\"
[[model.deadline]]
name = \"begin\"
kind = \"start\"
for = \"PT5S\"
escalation = [{name = \"move\", reassign = \"user('ben')\"}]
";
