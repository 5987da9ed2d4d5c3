// What the program prints by itself. Written by docs/words.py from docs/words.table.

/// What `--version` prints.
pub const VERSION: &str = "rkt 0.2.0\n";

/// What `--help` prints.
pub const HELP: &str = "\
rkt: pods in a folder, without a daemon

usage:
  rkt image import PATH               stores the image of the bundle at PATH
  rkt image list                      lists the stored images
  rkt image rm KEY                    takes an image away
  rkt image gc                        takes away what killed image commands left
  rkt prepare [OPTION...] IMAGE...    makes a pod of an app of each image
  rkt run-prepared [OPTION...] POD    runs a prepared pod, once
  rkt run [OPTION...] IMAGE...        makes a pod of images and runs it
  rkt list                            prints the pods, with phases and apps
  rkt status POD                      prints a pod's phase and how apps ended
  rkt cat-manifest POD                prints the manifest of a pod
  rkt rm POD                          removes a pod
  rkt gc [OPTION...]                  removes pods that are dead or too old
  rkt metadata-service ADDRESS COUNT  tells apps of their pod, over HTTP
  rkt validate FILE                   judges a manifest of App Container 0.8
  rkt demo N                          shows the commands at work, in memory
  rkt COMMAND --help                  tells its words, options and statuses
  rkt --help                          prints this, as rkt -h and rkt help do
  rkt --version                       prints the version

The data folder is the one that RKT_DIR names, or rkt in the current folder
where that is unset or empty. Whatever is missing of it is made.

exit status:
   0  done                              11  spawner fault: an app can't start
   1  usage: words of no command        12  output fault: it can't be written
   2  no such pod                       13  link fault of the metadata service
   3  ambiguous: several pods           14  out of memory
   4  wrong phase of the pod            15  no file, damaged, bad kind, conflict
   5  busy: another holds a lock        16  an app ended with another status
   6  bad manifest                      17  taken: the drawn uuid is in use
   7  no image, no dependency, cycle    18  no manifest of the pod
   8  limit passed                      19  no program of an app
   9  directory fault (data folder)     20  stray reply: another interfered
  10  bundle fault: it can't be read
";

const IMAGE: &str = "\
usage: rkt image COMMAND, one of these:

  rkt image import PATH  stores the image of the bundle at PATH
  rkt image list         lists the stored images
  rkt image rm KEY       takes an image away
  rkt image gc           takes away what killed image commands left

Each of them tells more of itself, as rkt image import --help does.
";

const IMAGE_IMPORT: &str = "\
usage: rkt image import PATH

Stores the image of the bundle at PATH, and prints its key. A bundle is a folder
with the files manifest and id, a folder rootfs and, if it has one, a file tree,
the listing of rootfs. The image is stored as a whole or not at all. Where it is
stored already, nothing changes.
A PATH that begins with a hyphen stands behind --, or is named with its folder,
as ./-x.

  PATH  the folder of a bundle

exit status: 0 done, 1 usage, 5 busy, 6 bad manifest, 8 limit,
  9 directory fault, 10 bundle fault, 12 output fault, 14 out of memory,
  15 no file, damaged, bad kind, conflict, 20 stray reply
";

const IMAGE_LIST: &str = "\
usage: rkt image list

Prints a line KEY NAME MOMENT for each stored image, in the order of the keys.
NAME is that of its manifest, MOMENT the time of its import in seconds since
1970. It changes nothing.

exit status: 0 done, 1 usage, 5 busy, 9 directory fault, 12 output fault,
  14 out of memory, 15 damaged
";

const IMAGE_RM: &str = "\
usage: rkt image rm KEY

Takes the image with this key away, and prints a line removed KEY. It is refused
while another process reads images.

  KEY  what image list prints, sha512- and 64 digits; or a whole image ID, of
       128

exit status: 0 done, 1 usage, 5 busy, 7 no image, 9 directory fault,
  12 output fault, 14 out of memory, 20 stray reply
";

const IMAGE_GC: &str = "\
usage: rkt image gc

Takes away what imports and removals left that were killed, and prints a line
for each folder that it moves or deletes. While an import is at work it touches
nothing of what imports left. Stored images are left as they are.

exit status: 0 done, 1 usage, 9 directory fault, 12 output fault,
  14 out of memory, 20 stray reply
";

const PREPARE: &str = "\
usage: rkt prepare [--volume=VOLUME] [--mount=MOUNT] IMAGE...

Makes a pod of an app of each IMAGE, in their order, and prints its uuid once it
is whole and synced. Of several images that match, the one that was imported
last counts. Volume and mount are written into the pod's manifest; nothing is
mounted.

  IMAGE            NAME or NAME:VERSION, either with ,LABEL=VALUE behind it as
                   often as needed; or the beginning of an image ID, sha512- and
                   at least 2 digits
  --volume=VOLUME  a volume of the pod
  --mount=MOUNT    where each app has that volume
  VOLUME           NAME,kind=host,source=PLACE, that with ,readOnly=true behind
                   it, or NAME,kind=empty; PLACE is an absolute path that has no
                   .. and no comma in it
  MOUNT            volume=NAME,target=PLACE

exit status: 0 done, 1 usage, 5 busy, 6 bad manifest,
  7 no image, no dependency, cycle, 8 limit, 9 directory fault, 12 output fault,
  14 out of memory, 15 damaged, 17 taken, 20 stray reply
";

const RUN_PREPARED: &str = "\
usage: rkt run-prepared [--metadata=ADDRESS] POD

Runs a prepared pod, once: starts the program of each app in the app's root,
waits until all have ended, and prints a line app-NAME=STATUS for each, in the
order of the pod's manifest. A program that a signal ended counts as 255. Apps
aren't isolated.

  POD                 a pod's uuid, 36 characters with hyphens, or the beginning
                      of one, in small or capital letters
  --metadata=ADDRESS  of the metadata service, told the apps in AC_METADATA_URL;
                      127.0.0.1:18112 where it isn't given
  ADDRESS             1 to 255 printable characters of ASCII, but no space and
                      no /

exit status: 0 done, 1 usage, 2 no such pod, 3 ambiguous, 4 wrong phase, 5 busy,
  9 directory fault, 11 spawner fault, 12 output fault, 14 out of memory,
  15 damaged, 16 an app's status isn't 0, 18 no manifest, 19 no program,
  20 stray reply
";

const RUN: &str = "\
usage: rkt run [--volume=VOLUME] [--mount=MOUNT] [--metadata=ADDRESS] IMAGE...

Makes a pod as prepare does, and runs it as run-prepared does. When all apps
have ended it prints the pod's uuid and a line app-NAME=STATUS for each.

  IMAGE               NAME or NAME:VERSION, either with ,LABEL=VALUE behind it
                      as often as needed; or the beginning of an image ID,
                      sha512- and at least 2 digits
  --volume=VOLUME     a volume of the pod
  --mount=MOUNT       where each app has that volume
  --metadata=ADDRESS  of the metadata service, told the apps in AC_METADATA_URL;
                      127.0.0.1:18112 where it isn't given
  VOLUME              NAME,kind=host,source=PLACE, that with ,readOnly=true
                      behind it, or NAME,kind=empty; PLACE is an absolute path
                      that has no .. and no comma in it
  MOUNT               volume=NAME,target=PLACE
  ADDRESS             1 to 255 printable characters of ASCII, but no space and
                      no /

exit status: 0 done, 1 usage, 5 busy, 6 bad manifest,
  7 no image, no dependency, cycle, 8 limit, 9 directory fault,
  11 spawner fault, 12 output fault, 14 out of memory, 15 damaged,
  16 an app's status isn't 0, 17 taken, 18 no manifest, 19 no program,
  20 stray reply
";

const LIST: &str = "\
usage: rkt list

Prints a line for each pod, by uuid: its uuid, its phase and the names of its
apps, with a tab between them, and changes nothing. Between the names are
commas; - stands for none, also where the pod's manifest is missing or has no
reading. A pod that is there throughout has one line, whatever other processes
do.

exit status: 0 done, 1 usage, 9 directory fault, 12 output fault,
  14 out of memory, 20 stray reply
";

const STATUS: &str = "\
usage: rkt status POD

Prints the phase of a pod as a line state=PHASE, then created=N, the moment in
seconds when it was made, where its folder has that mark, and a line
app-APP=STATUS for each app that ended, by name; and changes nothing of the pod.
A status that is just being written isn't told. PHASE is embryo, preparing,
aborted prepare, prepared, running, exited, exited garbage, garbage or deleting.

  POD  a pod's uuid, 36 characters with hyphens, or the beginning of one, in
       small or capital letters

exit status: 0 done, 1 usage, 2 no such pod, 3 ambiguous, 9 directory fault,
  12 output fault, 14 out of memory, 20 stray reply
";

const CAT_MANIFEST: &str = "\
usage: rkt cat-manifest POD

Prints the manifest of a pod, as JSON without spaces in one line, and changes
nothing. Before a pod is prepared it may have none yet.

  POD  a pod's uuid, 36 characters with hyphens, or the beginning of one, in
       small or capital letters

exit status: 0 done, 1 usage, 2 no such pod, 3 ambiguous, 9 directory fault,
  12 output fault, 14 out of memory, 18 no manifest, 20 stray reply
";

const RM: &str = "\
usage: rkt rm POD

Removes a pod, and prints a line removed UUID. No pod is removed that is an
embryo, or that another process makes, runs or deletes.

  POD  a pod's uuid, 36 characters with hyphens, or the beginning of one, in
       small or capital letters

exit status: 0 done, 1 usage, 2 no such pod, 3 ambiguous, 4 wrong phase, 5 busy,
  9 directory fault, 12 output fault, 14 out of memory, 18 no manifest,
  20 stray reply
";

const GC: &str = "\
usage: rkt gc [--grace-period=DURATION] [--expire-prepared=DURATION]

Sweeps pods, and prints a line UUID DEED for each that it finds. Pods whose
making was killed are moved to garbage and deleted, and so are prepared ones
that are too old; exited ones are marked, and deleted when the grace period is
over. What another process holds is let be.

  --grace-period=DURATION     how long an exited pod is kept once it is marked;
                              30m where it isn't given
  --expire-prepared=DURATION  how long a prepared pod is kept once it is made;
                              24h where it isn't given
  DURATION                    seconds, or numbers with h, m and s in this order:
                              90, 30m, 1h30m

exit status: 0 done, 1 usage, 9 directory fault, 12 output fault,
  14 out of memory, 20 stray reply
";

const METADATA_SERVICE: &str = "\
usage: rkt metadata-service ADDRESS COUNT

Listens at ADDRESS, takes COUNT connections, one after the other, answers one
request of each as App Container's metadata service does, and hangs up. It
prints nothing. An app asks below the address in its variable AC_METADATA_URL,
as GET $AC_METADATA_URL/acMetadata/v1/pod/uuid, with the header Metadata-Flavor:
AppContainer; the token in that address names its pod.
A read and a write of a connection wait ten seconds at most. What fails at one
connection ends that connection alone, and is told at the end.

  ADDRESS  1 to 255 printable characters of ASCII, but no space and no /
  COUNT    how many connections: 1 to 65535, in decimal digits without a zero
           before others

exit status: 0 done, 1 usage, 9 directory fault, 13 link fault, 14 out of memory
";

const VALIDATE: &str = "\
usage: rkt validate FILE

Reads FILE as an image manifest or a pod manifest, as its acKind says, and
prints a line valid ImageManifest NAME or valid PodManifest N, N being the
number of its apps. Of a bad manifest it tells the place and the number of the
first fault.
A FILE that begins with a hyphen stands behind --, or is named with its folder,
as ./-x.

  FILE  the file to judge

exit status: 0 done, 1 usage, 6 bad manifest, 9 directory fault,
  10 bundle fault, 12 output fault, 14 out of memory, 15 no file
";

const DEMO: &str = "\
usage: rkt demo N

Plays the commands on a data folder in memory: imports N images, of which each
but the first depends on an earlier one, prepares a pod of each, runs every
third, where those of an odd number end with status 1, sweeps twice, half an
hour of its own time apart, and lists what is left. It prints one line: images
imported, pods prepared, pods run, apps with another status than 0, pods
deleted, pods left, and the entries of all renderings. The real data folder is
made where it is missing, and isn't used; no program is started.

  N  how many images: 1 to 100, in decimal digits without a zero before others

exit status: 0 done, 1 usage, 9 directory fault, 12 output fault,
  14 out of memory
";

/// The text of each first word.
pub const COMMANDS: [(&str, &str); 12] = [
    ("image", IMAGE),
    ("prepare", PREPARE),
    ("run-prepared", RUN_PREPARED),
    ("run", RUN),
    ("list", LIST),
    ("status", STATUS),
    ("cat-manifest", CAT_MANIFEST),
    ("rm", RM),
    ("gc", GC),
    ("metadata-service", METADATA_SERVICE),
    ("validate", VALIDATE),
    ("demo", DEMO),
];

/// The text of each word behind `image`.
pub const IMAGE_COMMANDS: [(&str, &str); 4] = [
    ("import", IMAGE_IMPORT),
    ("list", IMAGE_LIST),
    ("rm", IMAGE_RM),
    ("gc", IMAGE_GC),
];
